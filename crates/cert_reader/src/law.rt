// Laws of the texts of certificates.
ghost use Rattle.cert_reader.specs.Laws.{SpellsOne, IsRightWhereSpelled, HasOneFault};

/// A text spells one certificate at most. A text that spells one has no first fault, and every other has one first fault at most.
pub fn text_law()
    ensures spelled { SpellsOne }
    ensures right { IsRightWhereSpelled }
    ensures fault { HasOneFault }
{}

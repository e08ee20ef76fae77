// Laws of the answers.
ghost use Rattle.plane_edge.specs.Spelling.{SpellingsAgree};

/// All spellings of a rational point get the same answers of `on`, `inside` and `meet`.
pub fn spelling_law()
    ensures { SpellingsAgree }
{}

// The options of the command line.
ghost use Rattle.std.specs.Prelude.{◌≡◌, ◌≢◌, IfSome, IfNone};
ghost use Rattle.generalise_core.specs.Words.{word_of};

/// An option, which has a value behind it.
#[derive(Clone, Copy)]
pub(crate) enum Setting {
    /// How many splits there are to be at most.
    Splits,
    /// The property that has the class text.
    Class,
    /// The object of a topology.
    Object,
}

impl Setting {
    /// The option of that word.
    pub(crate) fn of(word: &str) -> Option<Setting>
        ensures found { IfSome result (λ s. word.now ≡ word_of s) }
        ensures none { IfNone result ((s : Setting) → word.now ≢ word_of s) }
    {
        if word == "--splits" {
            return Some(Setting::Splits);
        }
        if word == "--class" {
            return Some(Setting::Class);
        }
        if word == "--object" {
            return Some(Setting::Object);
        }
        None
    }
}

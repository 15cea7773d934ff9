//! The words for commands.
ghost use Rattle.std.specs.Prelude.{◌≡◌, ◌↔◌, Some};
ghost use Rattle.bt_words.specs.Verbs.{verb_name};

/// The word for a command.
#[derive(Clone, Copy)]
pub enum Verb {
    FlowCheck,
    Recover,
    Check,
    Decide,
    Make,
    Layout,
    CheckLayout,
    Smallest,
    Formula,
    Same,
    CheckSame,
    Build,
}

impl Verb {
    /// The command with this word, where one has it.
    pub fn named(word: &str) -> Option<Verb>
        ensures { (v : Verb) → (result ≡ Some v) ↔ (word.now ≡ verb_name v) }
    {
        match word {
            "flow-check" => Some(Verb::FlowCheck),
            "recover" => Some(Verb::Recover),
            "check" => Some(Verb::Check),
            "decide" => Some(Verb::Decide),
            "make" => Some(Verb::Make),
            "layout" => Some(Verb::Layout),
            "check-layout" => Some(Verb::CheckLayout),
            "smallest" => Some(Verb::Smallest),
            "formula" => Some(Verb::Formula),
            "same" => Some(Verb::Same),
            "check-same" => Some(Verb::CheckSame),
            "build" => Some(Verb::Build),
            _ => None,
        }
    }
}

//! What is said of a network that was made by a rule.
ghost use Rattle.std.specs.Prelude.{◌≡◌};
ghost use Rattle.bt_print.specs.Answers.{made_status};

use bt_words::NetworkFamily;

/// A network that is made by a rule, and whether it is balanced.
#[derive(Clone, Copy)]
pub struct Made {
    pub family: NetworkFamily,
    pub order: u32,
    /// How many edges the network has.
    pub edges: usize,
    /// How many outputs the network has.
    pub outputs: u32,
    pub balanced: bool,
}

impl Made {
    /// The status of the answer: 0 where the network is balanced, and 1 where it isn't.
    pub fn status(&self) -> u8
        ensures { result ≡ made_status self.now }
    {
        if self.balanced { 0 } else { 1 }
    }
}

//! After how many conflicts a thorough search restarts (Luby, Sinclair and Zuckerman, by Knuth's rule).

/// As many conflicts as the least round has.
const LEAST: u64 = 1_024;

/// The lengths of rounds: 1, 1, 2, 1, 1, 2, 4 and so on, as many times as the least.
#[derive(Drop)]
pub struct Rounds {
    number: u64,
    length: u64,
}

impl Rounds {
    /// From the first round on.
    pub fn new() -> Rounds {
        Rounds {
            number: 1,
            length: 1,
        }
    }

    /// How many conflicts the next round has.
    pub fn next(&mut self) -> u64 {
        let conflicts = self.length.saturating_mul(LEAST);
        let twice = self.length.saturating_mul(2).max(1);
        if self.number % twice == 0 {
            self.length = twice;
        } else {
            self.number = self.number.saturating_add(1);
            self.length = 1;
        }
        conflicts
    }
}

//! Restarts where the clauses that are learnt get worse.

/// The digits of averages behind the point.
const DIGITS: u32 = 32;

/// Between two restarts at least so many clauses are learnt.
const LEAST_STEPS: u64 = 10;

/// How many of the last clauses the quick average is over.
const QUICK: u64 = 32;

/// How many of the last clauses the slow average is over.
const SLOW: u64 = 8192;

/// At how many levels the literals of learnt clauses became false, on the average over few and over many of the last
/// clauses. A clause of few levels tells much.
#[derive(Clone, Copy)]
pub struct Pace {
    quick: u64,
    slow: u64,
    /// How many clauses the slow average is over.
    over: u64,
    /// The clauses since the last restart.
    steps: u64,
}

/// The average over about `over` numbers, after a new one: one part in `over` of the average so far is replaced by one
/// part in `over` of the new number.
fn averaged(average: u64, new: u64, over: u64) -> u64 {
    let over = over.max(1);
    average
        .saturating_sub(average / over)
        .saturating_add(new / over)
}

impl Pace {
    /// The pace before the first clause.
    pub fn new() -> Pace {
        Pace {
            quick: 0,
            slow: 0,
            over: 0,
            steps: 0,
        }
    }

    /// Counts a clause, whose literals became false at so many levels.
    pub fn count(&mut self, levels: u32) {
        let levels = u64::from(levels) << DIGITS;
        self.over = self.over.saturating_add(1).min(SLOW);
        self.quick = averaged(self.quick, levels, QUICK);
        self.slow = averaged(self.slow, levels, self.over);
        self.steps = self.steps.saturating_add(1);
    }

    /// Whether a restart is due, since the last clauses are worse than those before. Where it is, the clauses up to the
    /// next restart are counted anew.
    pub fn is_due(&mut self) -> bool {
        if self.steps < LEAST_STEPS || self.quick <= self.slow {
            return false;
        }
        self.steps = 0;
        true
    }
}

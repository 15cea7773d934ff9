//! By what means a round looks for layouts of requests, and when it ends.

/// How many requests in a row a round passes before it ends.
const MOST_PASSED: usize = 8;

/// How many it passes where it makes sketches.
const MOST_SKETCHED: usize = 3;

/// How a layout of a request is looked for.
#[derive(Clone, Copy)]
pub enum Means {
    /// By a sketch of one.
    Sketch,
    /// By a search where one is likely, with at most so many steps.
    Search(u64),
}

impl Means {
    /// How many requests a round passes, since it began or a layout was found, before it ends.
    pub fn most_passed(self) -> usize {
        match self {
            Means::Sketch => MOST_SKETCHED,
            Means::Search(_) => MOST_PASSED,
        }
    }
}

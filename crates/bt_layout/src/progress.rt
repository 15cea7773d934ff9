//! What was found so far, and how many steps were taken.
ghost use Rattle.std.specs.Prelude.{◌≡◌, ◌+◌, ◌<◌, ℕ, List, IfSome, Some};
ghost use Rattle.bt_model.specs.Requests.{LayoutRequest};
ghost use Rattle.bt_layout.specs.Early.{IsLaid};
ghost use Rattle.bt_layout.specs.inner.Progressing.{ArePaid, IsProgress, lesser_of};

use bt_parts::Part;

/// A request of a list that was laid.
#[derive(Drop)]
pub struct Laid {
    /// Its place in the list.
    pub place: usize,
    /// The parts that lay it, in ascending order of y and then x of their cells.
    pub parts: Vec<Part>,
}

/// What was found so far, and how many steps were taken. Any rounds of searches may go on from there: they look for
/// layouts of lesser requests, which stand before the one that was laid.
#[derive(Drop)]
pub struct Progress {
    /// The least request that was laid, where one was.
    pub found: Option<Laid>,
    /// How many steps all searches took together.
    pub steps: u64,
}

/// The progress at the beginning: nothing was found, and no step was taken.
pub fn first_progress() -> Progress
    ensures { (requests : List LayoutRequest) (learnt : ℕ) → IsProgress requests learnt result }
{
    Progress {
        found: None,
        steps: 0,
    }
}

/// How many of so many requests are lesser than the one that was laid: all where none was.
pub fn lesser(progress: &Progress, count: usize) -> usize
    ensures { result ≡ lesser_of count progress.now.found }
{
    match &progress.found {
        Some(laid) => laid.place,
        None => count,
    }
}

/// The progress after so many more steps, which found a layout of a request that is lesser than the one that was laid.
pub fn with_layout(progress: Progress, laid: Laid, steps: u64) -> Progress
    requires lesser { IfSome progress.found (λ other. laid.place < other.place) }
    ensures progress { (requests : List LayoutRequest) (learnt : ℕ) → IsProgress requests learnt progress
        → ArePaid learnt progress.steps steps → IsLaid requests laid.place laid.parts
        → IsProgress requests learnt result }
    ensures found { result.found ≡ Some laid }
{
    Progress {
        found: Some(laid),
        steps: progress.steps.saturating_add(steps),
    }
}

/// The progress after so many more steps, which found nothing.
pub fn with_steps(progress: Progress, steps: u64) -> Progress
    ensures progress { (requests : List LayoutRequest) (learnt : ℕ) → IsProgress requests learnt progress
        → ArePaid learnt progress.steps steps → IsProgress requests learnt result }
    ensures found { result.found ≡ progress.found }
    ensures steps { (learnt : ℕ) → ArePaid learnt progress.steps steps
        → result.steps ≡ progress.steps + steps }
{
    Progress {
        steps: progress.steps.saturating_add(steps),
        ..progress
    }
}

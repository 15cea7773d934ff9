//! Which steps are needed: the last one, and those that a needed one names by its hints.
ghost use Rattle.std.specs.Prelude.{◌≡◌, ◌≤◌, ◌<◌, [], ◌∷◌, IfOk, length};
ghost use Rattle.bt_log.specs.inner.Marking.{AreMarked, MarksLast, MarksNamed, MarksOf};

use crate::log::Log;
use crate::step::StepView;
use std::alloc::{AllocError, Global};

/// For each step whether it is needed.
pub fn needed(alloc: Global, log: &Log) -> Result<Vec<bool>, AllocError>
    ensures { IfOk result (λ marks. AreMarked log.now 0 marks.items) }
{
    let mut marks = vec![in alloc; false; log.len()]?;
    mark_last(&mut marks);
    mark_all(log, &mut marks);
    Ok(marks)
}

/// Marks the last place, where there is one.
fn mark_last(marks: &mut [bool])
    ensures { MarksLast marks.old marks.new }
{
    let count = marks.len();
    if count > 0 {
        marks[count - 1] = true;
    }
}

/// Marks the steps that a marked one names, from the last one back.
fn mark_all(log: &Log, marks: &mut [bool])
    requires { AreMarked log.now (length marks.old) marks.old }
    ensures { AreMarked log.now 0 marks.new }
{
    let mut place = marks.len();
    while place > 0 {
        place -= 1;
        mark_of(log, place, marks);
    }
}

/// Marks the earlier steps that the step at a place names, where it is marked.
fn mark_of(log: &Log, place: usize, marks: &mut [bool])
    requires inside { place < length log.now.steps }
    requires count { length marks.old ≡ length log.now.steps }
    ensures { MarksOf log.now place marks.old marks.new }
{
    if marks[place]
        && let StepView::Learnt { hints, .. } = log.step(place)
    {
        mark_named(log.first(), hints, place, marks);
    }
}

/// Marks those of the first `place` steps that hints name. The clause of the first step has the number `first`.
fn mark_named(first: usize, hints: &[u32], place: usize, marks: &mut [bool])
    requires { place ≤ length marks.old }
    ensures { MarksNamed first hints.now place marks.old marks.new }
{
    for hint in hints {
        mark(first, *hint as usize, place, marks);
    }
}

/// Marks the step that a hint names, where it is one of the first `place` steps, whose clauses have the numbers from
/// `first` on.
fn mark(first: usize, hint: usize, place: usize, marks: &mut [bool])
    requires { place ≤ length marks.old }
    ensures { MarksNamed first (hint ∷ []) place marks.old marks.new }
{
    if first <= hint && hint - first < place {
        marks[hint - first] = true;
    }
}

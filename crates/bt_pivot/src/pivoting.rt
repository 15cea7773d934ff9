//! Pivots of a basis: a position leaves it, and one that its line names enters. The line that is 0 wherever the
//! leaving position's line holds has -1 at the entering position, so adding its multiples to the others removes that
//! position: one walk over two lines.
ghost use Rattle.std.specs.Prelude.{◌≡◌, ◌≢◌, ◌<◌, ◌-◌, ◌^◌, length, slice_set, IfOk, IfErr, Some, None};
ghost use Rattle.bt_frac.specs.Ratio.{negated};
ghost use Rattle.bt_farkas.specs.WeightedRows.{coefficient_at};
ghost use Rattle.bt_linear_forms.specs.Lines.{one, Terms};
ghost use Rattle.bt_pivot.specs.Classes.{position_at};
ghost use Rattle.bt_pivot.specs.SolvedForms.{slot_at};
ghost use Rattle.bt_linear_forms.specs.Changes.{IsChange};
ghost use Rattle.bt_pivot.specs.Tableaus.{TableauParts};
ghost use Rattle.bt_linear_forms.specs.Substituting.{IsSubstituted, IsUnfitChange, IsEntering};
ghost use Rattle.bt_pivot.specs.PivotedSlots.{AreLines, IsPivoted, CanPart, IsUnfitPivot};
ghost use Rattle.bt_pivot.specs.inner.PivotedSlots.{AreSubstituted, with_line, IsSignedEntering};
ghost use Rattle.bt_pivot.specs.inner.SumCache.{LinesStay, OthersStay};
ghost use Rattle.bt_pivot.specs.Sums.{SlotsStay};
ghost use Rattle.bt_pivot.specs.inner.UnfitPivots.{IsUnfitSlot, IsSlotZero, IsUnfitPart, IsUnfitLine, entry_cause};

use crate::basis::{Basis, Member};
use crate::causes::{Cause, WidePlace};
use crate::sum_cache::{SumCache, sums_of};
use crate::table::Table;
use crate::workspace::Rooms;
use bt_frac::Frac;
use bt_linear_forms::{Change, Line, Operation, Room, Unfit, combined, zero_line};
use std::alloc::{AllocError, Global};

/// Puts what the entering position stands for in place of it in the line of a slot, by small whole numbers. An empty
/// slot lacks the position. A room is taken for the new terms, and that of the old ones is left. Two thirds of the
/// lines don't name the position, so a walk to it comes first.
fn change(
    alloc: Global,
    room: &mut Room,
    slot: &mut Option<Line>,
    enters: usize,
    zero: &Line,
) -> Result<Change, AllocError>
    ensures { IfOk result (IsChange enters zero.now slot.old slot.new) }
{
    match slot {
        Some(line) => line.substitute(alloc, room, enters, zero),
        None => Ok(Change::Lacks),
    }
}

/// Puts what the entering position stands for in place of it by fractions, in a slot whose line names it; or tells a
/// product or a sum that leaves 128 bits, and the slot stays.
fn change_long(
    alloc: Global,
    slot: &mut Option<Line>,
    enters: usize,
    zero: &Line,
) -> Result<Result<(), Unfit>, AllocError>
    requires { (terms : Terms) × (slot.old ≡ Some terms) × (coefficient_at enters terms ≢ None) }
    ensures done { IfOk result (λ o. IfOk o (λ _. IsSubstituted enters zero.now slot.old slot.new)) }
    ensures stays { IfOk result (λ o. IfErr o (λ _. slot.new ≡ slot.old)) }
    ensures unfit { IfOk result (λ o. IfErr o
        (λ u. (terms : Terms) × (slot.old ≡ Some terms) × IsUnfitChange enters zero.now terms u)) }
{
    let Some(line) = slot else { unreachable!() };
    match line.substituted_long(alloc, enters, zero)? {
        Ok(sum) => {
            *slot = Some(sum);
            Ok(Ok(()))
        }
        Err(unfit) => Ok(Err(unfit)),
    }
}

/// Why a line can't be formed for a pivot, by the numbers of the solved form before it. Products are formed with
/// numbers of the zero line, which are quotients of the leaving line's numbers with the other sign: so the sign is
/// turned back.
fn entry_cause(row: usize, unfit: Unfit) -> Cause
    ensures { result ≡ entry_cause row unfit }
{
    let right = match unfit.operation {
        Operation::Mul => unfit.right.negate(),
        Operation::Add | Operation::Div => unfit.right,
    };
    Cause {
        place: WidePlace::Entry,
        row,
        column: unfit.column,
        operation: unfit.operation,
        left: unfit.left,
        right,
    }
}

/// Puts what the entering position stands for in place of it, in each line, and carries the sums of those that change,
/// or forgets them; or tells a product or a sum that leaves 128 bits, at a line before which the others have changed.
fn substitute(
    tableau: &Table,
    alloc: Global,
    rooms: &mut Rooms,
    slots: &mut [Option<Line>],
    kept: &mut SumCache,
    enters: usize,
    zero: &Line,
) -> Result<Result<(), Cause>, AllocError>
    ensures done { IfOk result (λ o. IfOk o (λ _. AreSubstituted enters zero.now slots.old slots.new)) }
    ensures unfit { IfOk result (λ o. IfErr o (IsUnfitSlot enters zero.now slots.old slots.new)) }
    ensures kept { IfOk result (λ o. IfOk o
        (λ _. LinesStay tableau.now slots.old slots.new kept.old.sums.items kept.new.sums.items)) }
{
    tableau.all_known();
    let others = sums_of(tableau, zero);
    let mut room = rooms.taken(alloc);
    for i in 0..slots.len() {
        match change(alloc, &mut room, &mut slots[i], enters, zero)? {
            Change::Lacks => {}
            // A multiple of the zero line was added, so that multiple of its sum is: three operations of 64 bits.
            Change::Made(scales) => kept.carry(i, others, &scales),
            Change::Long => match change_long(alloc, &mut slots[i], enters, zero)? {
                Ok(()) => kept.forget(i),
                Err(unfit) => return Ok(Err(entry_cause(i, unfit))),
            },
        }
    }
    rooms.keep(room);
    Ok(Ok(()))
}

/// The line of the entering position: the position itself and a line that is 0 and has its number -1
/// there, so that each product and sum fits.
fn entering_line(
    alloc: Global,
    rooms: &mut Rooms,
    enters: usize,
    zero: &Line,
) -> Result<Line, AllocError>
    requires position { enters < 2 ^ 64 - 1 }
    requires number { coefficient_at enters zero.now ≡ Some (negated one) }
    ensures { IfOk result (IsEntering enters zero.now) }
{
    let room = rooms.taken(alloc);
    if let Some(line) = zero.whole_entering(room, enters)? {
        return Ok(line);
    }
    let one = Frac::whole(1);
    let terms = zero.terms(alloc)?;
    match combined(alloc, &[(enters, one)], &one, &terms)? {
        Ok(line) => Ok(line),
        Err(_) => unreachable!(),
    }
}

/// The line of the entering position, with its numbers negated where `is_negated` is set.
fn signed_entering(
    alloc: Global,
    rooms: &mut Rooms,
    enters: usize,
    is_negated: bool,
    zero: &Line,
) -> Result<Line, AllocError>
    requires position { enters < 2 ^ 64 - 1 }
    requires number { coefficient_at enters zero.now ≡ Some (negated one) }
    ensures { IfOk result (IsSignedEntering enters is_negated zero.now) }
{
    let entering = entering_line(alloc, rooms, enters, zero)?;
    entering.with_sign(alloc, is_negated)
}

/// The line that is 0 wherever a slot's line holds of its position; or a quotient that leaves 128 bits. Each number is
/// divided by the entering position's, and not multiplied with an inverse, so that a cause names a quotient of the
/// solved form itself.
fn slot_zero(
    alloc: Global,
    rooms: &mut Rooms,
    slot: &Option<Line>,
    leaves: usize,
    enters: usize,
) -> Result<Result<Line, Unfit>, AllocError>
    requires position { leaves < 2 ^ 64 - 1 }
    requires can { CanPart slot.now leaves enters }
    ensures zero { IfOk result (λ o. IfOk o (IsSlotZero slot.now leaves enters)) }
    ensures unfit { IfOk result (λ o. IfErr o (IsUnfitPart slot.now leaves enters)) }
{
    let Some(line) = slot else { unreachable!() };
    let room = rooms.taken(alloc);
    if let Some(zero) = line.whole_zero(room, leaves, enters)? {
        return Ok(Ok(zero));
    }
    long_zero(alloc, line, leaves, enters)
}

/// The line that is 0 wherever the line of a position of the basis holds; or a quotient that leaves 128 bits.
fn leaving_zero(
    alloc: Global,
    rooms: &mut Rooms,
    basis: &Basis,
    leaves: usize,
    enters: usize,
) -> Result<Result<Line, Unfit>, AllocError>
    requires position { leaves < 2 ^ 64 - 1 }
    requires can { CanPart (slot_at basis.now leaves) leaves enters }
    ensures zero { IfOk result (λ o. IfOk o (IsSlotZero (slot_at basis.now leaves) leaves enters)) }
    ensures unfit { IfOk result (λ o. IfErr o (IsUnfitPart (slot_at basis.now leaves) leaves enters)) }
{
    let room = rooms.taken(alloc);
    let slot = basis.line(alloc, room, leaves)?;
    let zero = slot_zero(alloc, rooms, &slot, leaves, enters)?;
    rooms.give(slot);
    Ok(zero)
}

/// The line that is 0 wherever a line holds of its position, by fractions; or a quotient that leaves 128 bits.
fn long_zero(
    alloc: Global,
    line: &Line,
    leaves: usize,
    enters: usize,
) -> Result<Result<Line, Unfit>, AllocError>
    requires position { leaves < 2 ^ 64 - 1 }
    requires can { CanPart (Some line.now) leaves enters }
    ensures zero { IfOk result (λ o. IfOk o (IsSlotZero (Some line.now) leaves enters)) }
    ensures unfit { IfOk result (λ o. IfErr o (IsUnfitPart (Some line.now) leaves enters)) }
{
    let Some(number) = line.number_at(enters) else {
        unreachable!()
    };
    let terms = line.terms(alloc)?;
    zero_line(alloc, leaves, &terms, &number)
}

/// Takes the line of the class `left` out, and puts what the entering position stands for in place of it in each other
/// line, with the sums of those that change carried or forgotten; or tells a product or a sum that leaves 128 bits, and
/// the same classes then have lines as before.
fn substitute_others(
    tableau: &Table,
    alloc: Global,
    rooms: &mut Rooms,
    lines: &mut [Option<Line>],
    kept: &mut SumCache,
    left: usize,
    enters: usize,
    zero: &Line,
) -> Result<Result<(), Cause>, AllocError>
    requires { left < length lines.old }
    ensures done { IfOk result
        (λ o. IfOk o (λ _. AreSubstituted enters zero.now (slice_set lines.old left None) lines.new)) }
    ensures unfit { IfOk result (λ o. IfErr o (IsUnfitLine left enters zero.now lines.old lines.new)) }
    ensures kept { IfOk result (λ o. IfOk o
        (λ _. OthersStay tableau.now left lines.old lines.new kept.old.sums.items kept.new.sums.items)) }
{
    let leaving = lines[left].take();
    kept.forget(left);
    match substitute(tableau, alloc, rooms, lines, kept, enters, zero)? {
        Ok(()) => {
            rooms.give(leaving);
            Ok(Ok(()))
        }
        Err(cause) => {
            lines[left] = leaving;
            Ok(Err(cause))
        }
    }
}

/// Gives a class the line of its first position, and forgets its sums. The class `left` gets none, since its leaving
/// position is now outside: the line's room is kept.
fn put_line(
    rooms: &mut Rooms,
    lines: &mut [Option<Line>],
    kept: &mut SumCache,
    left: usize,
    class: usize,
    line: Line,
)
    requires { class < length lines.old }
    ensures lines { lines.new ≡ with_line left class line lines.old }
    ensures kept { (t : TableauParts)
        → LinesStay t lines.old lines.new kept.old.sums.items kept.new.sums.items }
{
    if class == left {
        rooms.give(Some(line));
        return;
    }
    lines[class] = Some(line);
    kept.forget(class);
}

/// The cause, whose row is a class, with that class's first position for the row.
fn at_first(firsts: &[usize], cause: Cause) -> Cause
    requires { cause.row < length firsts.now }
    ensures { result ≡ record cause { row = position_at firsts.now cause.row } }
{
    Cause {
        place: cause.place,
        row: firsts[cause.row],
        column: cause.column,
        operation: cause.operation,
        left: cause.left,
        right: cause.right,
    }
}

/// A pivot of the basis: one position leaves it, and one that its line names enters. Or the operation whose result
/// leaves 128 bits; the same positions are then in the basis, but not with its lines. Both positions are below the
/// basis's length and differ, the one that enters isn't in the basis, and each line ascends and has no zeros.
pub fn pivot(
    tableau: &Table,
    alloc: Global,
    rooms: &mut Rooms,
    basis: &mut Basis,
    kept: &mut SumCache,
    leaves: usize,
    enters: usize,
) -> Result<Result<(), Cause>, AllocError>
    requires leaves { leaves < length basis.old }
    requires enters { enters < length basis.old }
    requires apart { leaves ≢ enters }
    requires can { CanPart (slot_at basis.old leaves) leaves enters }
    requires outside { slot_at basis.old enters ≡ None }
    requires lines { AreLines basis.old }
    ensures done { IfOk result (λ o. IfOk o (λ _. IsPivoted basis.old leaves enters basis.new)) }
    ensures unfit { IfOk result (λ o. IfErr o (IsUnfitPivot basis.old leaves enters basis.new)) }
    ensures kept { IfOk result (λ o. IfOk o
        (λ _. SlotsStay tableau.now basis.old basis.new kept.old.sums.items kept.new.sums.items)) }
{
    // This tells a proof that the number of positions fits 64 bits.
    let _ = basis.len();
    match leaving_zero(alloc, rooms, basis, leaves, enters)? {
        Ok(zero) => {
            let pivoted = pivot_by(tableau, alloc, rooms, basis, kept, leaves, enters, &zero)?;
            rooms.give(Some(zero));
            Ok(pivoted)
        }
        Err(unfit) => Ok(Err(entry_cause(leaves, unfit))),
    }
}

/// Makes a pivot by the line that is 0 wherever the line of the leaving position holds; or tells the operation whose
/// result leaves 128 bits.
fn pivot_by(
    tableau: &Table,
    alloc: Global,
    rooms: &mut Rooms,
    basis: &mut Basis,
    kept: &mut SumCache,
    leaves: usize,
    enters: usize,
    zero: &Line,
) -> Result<Result<(), Cause>, AllocError>
    requires leaves { leaves < length basis.old }
    requires enters { enters < length basis.old }
    requires apart { leaves ≢ enters }
    requires zero { IsSlotZero (slot_at basis.old leaves) leaves enters zero.now }
    requires outside { slot_at basis.old enters ≡ None }
    requires lines { AreLines basis.old }
    ensures done { IfOk result (λ o. IfOk o (λ _. IsPivoted basis.old leaves enters basis.new)) }
    ensures unfit { IfOk result (λ o. IfErr o (IsUnfitPivot basis.old leaves enters basis.new)) }
    ensures kept { IfOk result (λ o. IfOk o
        (λ _. SlotsStay tableau.now basis.old basis.new kept.old.sums.items kept.new.sums.items)) }
{
    let Member { class, negated } = basis.members[enters];
    let line = signed_entering(alloc, rooms, enters, negated, zero)?;
    let left = basis.members[leaves].class;
    kept.own(&basis.members);
    match substitute_others(
        tableau,
        alloc,
        rooms,
        &mut basis.lines,
        kept,
        left,
        enters,
        zero,
    )? {
        Ok(()) => {}
        Err(cause) => return Ok(Err(at_first(&basis.firsts, cause))),
    }
    put_line(rooms, &mut basis.lines, kept, left, class, line);
    basis.outside[left] = leaves;
    Ok(Ok(()))
}

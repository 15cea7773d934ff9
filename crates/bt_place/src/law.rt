//! Laws of the placement formula, as contracts of functions that do nothing.
ghost use Rattle.bt_place.specs.Laws.{LayingMeets, MeetingKeeps, UnlaidIsUnmet};

/// An assignment that meets the formula of a request, whoever found it, keeps each rule over facts.
pub fn meeting_keeps()
    ensures { MeetingKeeps }
{}

/// Each layout that lays a request gives an assignment that meets the request's formula: whatever naming,
/// curve, woven pair, empty chain, loop, parallel edges or half of a splitter it has. So where nothing meets
/// the formula, no layout lays the request.
pub fn laying_meets()
    ensures { LayingMeets }
{}

/// A request whose formula can be met has a layout: where no layout lays it, no assignment meets the formula.
pub fn unlaid_is_unmet()
    ensures { UnlaidIsUnmet }
{}

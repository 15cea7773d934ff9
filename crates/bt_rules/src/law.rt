//! Laws of the rules of a request, as contracts of functions that do nothing.
ghost use Rattle.bt_rules.specs.Laws.{LayingKeeps, KeepingLays, RulesAreWithin};

/// Each layout that lays a request gives a reading of the facts that keeps the request's rules: whatever
/// naming, curve, woven pair, empty chain, loop, parallel edges or half of a splitter it has. So where no
/// reading keeps the rules, no layout lays the request.
pub fn laying_keeps()
    ensures { LayingKeeps }
{}

/// The parts that are kept of a reading of the facts that keeps a request's rules lay the request: whatever
/// closed rings the reading tells of, nothing comes to them, and of the edges of one class each gets a chain of
/// that class, in accord with the ports of its splitters and the pins of its ends.
pub fn keeping_lays()
    ensures { KeepingLays }
{}

/// The rules of a request speak of cells, splitters, inputs and classes that it has, so that numbers for
/// these serve to write each rule.
pub fn rules_are_within()
    ensures { RulesAreWithin }
{}

//! Laws of the flow formula, as contracts of functions that do nothing.
ghost use Rattle.bt_flow_formula.specs.EvenFormula.{FlowFormulaIsEven};
ghost use Rattle.bt_flow_formula.specs.Laws.{TrueClaimsMeet, SteadyMeets, BreakingMeets, BreakingIsMet};
ghost use Rattle.bt_flow_formula.specs.Laws.{UnmetHolds, RefutedHolds};
ghost use Rattle.bt_flow_formula.specs.Solutions.{MeetingBreaks, MeetingIsSteady};
ghost use Rattle.bt_flow_formula.specs.Sizes.{FlowFormulasAreSmall, SteadyFormulasAreSmall};

/// Marks and values of which each clause has a true claim give an assignment, which begins with the marks
/// and meets the formula of the clauses with the values. So nothing is lost by the numbering.
pub fn true_claims_meet()
    ensures { TrueClaimsMeet }
{}

/// Each admissible steady state meets the clauses of all families: its marks are the first variables, and
/// its flows, loads and rooms the values. So these clauses rule out no steady state.
pub fn steady_meets()
    ensures { SteadyMeets }
{}

/// Each state that breaks a property meets the clauses of claims of the flow formula, which are all but those of a
/// level: its marks are the first variables, and its flows, loads and rooms the values.
pub fn breaking_meets()
    ensures { BreakingMeets }
{}

/// Each state that breaks a property gives an assignment with values that meets the flow formula of the network and
/// the property: it begins with the state's marks, and the values begin with its flows, loads and rooms.
pub fn breaking_is_met()
    ensures { BreakingIsMet }
{}

/// Each state whose marks and values are those of an assignment that meets the flow formula of a network and
/// a property breaks the property. So the formula is met by nothing but such states.
pub fn meeting_breaks()
    ensures { MeetingBreaks }
{}

/// Where nothing meets the flow formula of a network and a property, no state breaks the property: the
/// network has it.
pub fn unmet_holds()
    ensures { UnmetHolds }
{}

/// Where a log, whoever wrote it, refutes the flow formula of a network and a property, no state breaks the
/// property: the network has it.
pub fn refuted_holds()
    ensures { RefutedHolds }
{}

/// A network's flow formulas have fewer than 2 ^ 20 variables, and fewer clauses than that. So their numbers
/// are short in a text.
pub fn flow_formulas_are_small()
    ensures { FlowFormulasAreSmall }
{}

/// Each state whose marks and values are those of an assignment that meets the formula of a network's steady states
/// is admissible and steady. So that formula is met by nothing but such states.
pub fn meeting_is_steady()
    ensures { MeetingIsSteady }
{}

/// The same of the formulas of networks' steady states.
pub fn steady_formulas_are_small()
    ensures { SteadyFormulasAreSmall }
{}

/// Where no splitter prefers an edge, the flow formula is the one in which nothing speaks of preferred edges. So its
/// certificates are those of that formula.
pub fn flow_formula_is_even()
    ensures { FlowFormulaIsEven }
{}

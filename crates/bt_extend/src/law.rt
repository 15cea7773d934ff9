//! Laws of definitions, as the contracts of functions that do nothing.
ghost use Rattle.bt_extend.specs.Laws.{MeetingGoesOn, CutMeets, DefinitionsAreConservative, ExtendedIsFormula};
ghost use Rattle.bt_extend.specs.Laws.{RefutedExtensionIsUnmet, PrintedDefinitionIsRead};

/// What meets a formula goes on to meet the formula that definitions extend. The values are any fractions,
/// also such as leave 128 bits.
pub fn meeting_goes_on()
    ensures { MeetingGoesOn }
{}

/// What meets the extended formula, cut to the variables and columns of the formula, meets the formula.
pub fn cut_meets()
    ensures { CutMeets }
{}

/// Definitions are conservative: a formula can be met exactly where the formula that they extend can.
pub fn definitions_are_conservative()
    ensures { DefinitionsAreConservative }
{}

/// The formula that definitions extend is a formula.
pub fn extended_is_formula()
    ensures { ExtendedIsFormula }
{}

/// Where a log, whoever wrote it, refutes the formula that definitions extend, nothing meets the formula.
pub fn refuted_extension_is_unmet()
    ensures { RefutedExtensionIsUnmet }
{}

/// What is written of a definition is read as that definition, and as no other.
pub fn printed_definition_is_read()
    ensures { PrintedDefinitionIsRead }
{}

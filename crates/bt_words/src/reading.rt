//! The command that words are.
ghost use Rattle.std.specs.Prelude.{◌≡◌, ℕ, List, MatchOption, map, string_bytes};
ghost use Rattle.bt_words.specs.Verbs.{verb_of};
ghost use Rattle.bt_words.specs.Commands.{IsCommand, IsUsage, Suits};
ghost use Rattle.bt_words.specs.declared.command.Command.{Command as ACommand};
ghost use Rattle.bt_words.specs.declared.verb.Verb.TheVariants.{Layout, CheckLayout, Smallest, Formula, Build};

use crate::command::Command;
use crate::given::{Given, read_given};
use crate::verb::Verb;

/// The command that the words are. None where they are no command.
pub fn command_of(words: &[String]) -> Option<Command>
    ensures { MatchOption result (IsUsage (map string_bytes words.now))
        (λ command. IsCommand command (map string_bytes words.now)) }
{
    let (word, behind) = words.split_first()?;
    let verb = Verb::named(word.as_str())?;
    with_given(verb, read_given(behind)?)
}

/// Words are one command at most.
pub fn one_command()
    ensures { (c d : ACommand) (words : List (List ℕ)) → IsCommand c words → IsCommand d words → c ≡ d }
{}

/// The command of this word. None where what is given doesn't suit it.
fn with_given(verb: Verb, given: Given) -> Option<Command>
    ensures { MatchOption result ((c : ACommand) → verb ≡ verb_of c → Suits c given → ⊥)
        (λ c. (verb ≡ verb_of c) × Suits c given) }
{
    match verb {
        Verb::FlowCheck => Some(Command::FlowCheck(given.only_property()?)),
        Verb::Recover if given.is_nothing() => Some(Command::Recover),
        Verb::Recover => None,
        Verb::Check => Some(Command::Check(given.only_property()?)),
        Verb::Decide => Some(Command::Decide(given.property_and_limits()?, given.limits())),
        Verb::Make => Some(Command::Make(
            given.family(),
            given.order_and_limits()?,
            given.limits(),
        )),
        Verb::Layout => laid(given),
        Verb::CheckLayout => layout_checked(given),
        Verb::Smallest => smallest(given),
        Verb::Formula => formula_of(given),
        Verb::Same if given.is_limits() => Some(Command::Same(given.limits())),
        Verb::Same => None,
        Verb::CheckSame if given.is_nothing() => Some(Command::CheckSame),
        Verb::CheckSame => None,
        Verb::Build => built(given),
    }
}

/// `build` with what is given. None where that doesn't suit it.
fn built(given: Given) -> Option<Command>
    ensures { MatchOption result ((c : ACommand) → Build ≡ verb_of c → Suits c given → ⊥)
        (λ c. (Build ≡ verb_of c) × Suits c given) }
{
    let counted = given.wish_and_counts()?;
    let (wish, inputs, outputs) = counted;
    Some(Command::Build(wish, inputs, outputs, given.limits(), given.built_text()))
}

/// `layout` with what is given. None where that doesn't suit it.
fn laid(given: Given) -> Option<Command>
    ensures { MatchOption result ((c : ACommand) → Layout ≡ verb_of c → Suits c given → ⊥)
        (λ c. (Layout ≡ verb_of c) × Suits c given) }
{
    let grid = given.grid_to_lay()?;
    Some(Command::Layout(grid, given.tier, given.limits().learnt))
}

/// `check-layout` with what is given. None where that doesn't suit it.
fn layout_checked(given: Given) -> Option<Command>
    ensures { MatchOption result ((c : ACommand) → CheckLayout ≡ verb_of c → Suits c given → ⊥)
        (λ c. (CheckLayout ≡ verb_of c) × Suits c given) }
{
    let grid = given.grid_to_check()?;
    Some(Command::CheckLayout(grid, given.tier))
}

/// `smallest` with what is given, with `--found` or without. None where that doesn't suit it.
fn smallest(given: Given) -> Option<Command>
    ensures { MatchOption result ((c : ACommand) → Smallest ≡ verb_of c → Suits c given → ⊥)
        (λ c. (Smallest ≡ verb_of c) × Suits c given) }
{
    let learnt = given.limits().learnt;
    if let Some(most) = given.most_to_find() {
        return Some(Command::FindSmall(most, given.tier, given.asked_sides(), learnt));
    }
    let most = given.most_to_search()?;
    Some(Command::Smallest(given.from, most, given.tier, learnt))
}

/// `formula` with what is given, a property or a grid. None where that doesn't suit it.
fn formula_of(given: Given) -> Option<Command>
    ensures { MatchOption result ((c : ACommand) → Formula ≡ verb_of c → Suits c given → ⊥)
        (λ c. (Formula ≡ verb_of c) × Suits c given) }
{
    if let Some(property) = given.only_property() {
        return Some(Command::FlowFormula(property));
    }
    let grid = given.grid_to_check()?;
    Some(Command::PlaceFormula(grid, given.tier))
}

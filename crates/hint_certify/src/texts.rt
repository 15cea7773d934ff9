//! The text of a refutation, as certificates have it.
use crate::proof::{Step, Steps};
use crate::trail::Number;
use bt_io::{Sink, WriteFault, write_all_of};
use hint_clauses::Literal;
use itoa::Buffer;
use std::alloc::{AllocError, Global};

/// Writes a number, with a space in front.
fn print_number<K: Sink>(sink: &mut K, number: usize, is_negative: bool) -> Result<(), WriteFault> {
    let mut buffer = Buffer::new();
    write_all_of(sink, if is_negative { b" -" } else { b" " })?;
    write_all_of(sink, buffer.format(number).as_bytes())
}

/// The numbers of clauses in the text, from 1 on: those of the formula as they are, and behind them the steps that are
/// needed by their turn. Other steps have 0.
fn numbers_of(alloc: Global, steps: &Steps) -> Result<Vec<usize>, AllocError> {
    let mut numbers = Vec::new(alloc);
    for number in 1..=steps.formula {
        numbers.push(number)?;
    }
    let missing = steps.checker.database.len().saturating_sub(steps.formula);
    for _ in 0..missing {
        numbers.push(0)?;
    }
    for (turn, step) in steps.steps.iter().rev().enumerate() {
        if let Some(number) = numbers.get_mut(step.clause as usize) {
            *number = steps.formula.saturating_add(turn).saturating_add(1);
        }
    }
    Ok(numbers)
}

/// Writes a step: its literals and its hints.
fn print_step<K: Sink>(
    sink: &mut K,
    literals: &[Literal],
    hints: &[Number],
    numbers: &[usize],
) -> Result<(), WriteFault> {
    write_all_of(sink, b"r")?;
    for literal in literals {
        let number = literal.variable().saturating_add(1);
        print_number(sink, number, !literal.is_positive())?;
    }
    write_all_of(sink, b" 0")?;
    for hint in hints {
        let number = numbers.get(*hint as usize).copied().unwrap_or(0);
        print_number(sink, number, false)?;
    }
    write_all_of(sink, b" 0\n")
}

/// The hints from one place up to another one, which isn't included.
fn hints_of(steps: &Steps, start: usize, end: usize) -> &[Number] {
    match steps.hints.get(start..end) {
        Some(hints) => hints,
        None => &[],
    }
}

/// Writes the steps, the first first, and the line that ends them. Whether all could be written.
pub fn print<K: Sink>(alloc: Global, steps: &Steps, sink: &mut K) -> Result<bool, AllocError> {
    let numbers = numbers_of(alloc, steps)?;
    Ok(print_all(steps, &numbers, sink).is_ok())
}

/// Where the hints of the step at a place begin: behind those of the step before it in the list, or of the empty
/// clause.
fn start_of(steps: &[Step], place: usize, empty: usize) -> usize {
    match place.checked_sub(1) {
        Some(before) => match steps.get(before) {
            Some(step) => step.end,
            None => empty,
        },
        None => empty,
    }
}

/// Writes the steps with these numbers of clauses.
fn print_all<K: Sink>(steps: &Steps, numbers: &[usize], sink: &mut K) -> Result<(), WriteFault> {
    for (place, step) in steps.steps.iter().enumerate().rev() {
        let start = start_of(&steps.steps, place, steps.empty);
        let hints = hints_of(steps, start, step.end);
        print_step(
            sink,
            steps.checker.database.get(step.clause),
            hints,
            numbers,
        )?;
    }
    print_step(sink, &[], hints_of(steps, 0, steps.empty), numbers)?;
    write_all_of(sink, b"end\n")
}

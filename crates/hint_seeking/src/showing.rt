//! The plan of a search with a sketch.

use crate::plans::push_choices;
use bt_choosers::{Plan, Turn};
use bt_cnf::Formula;
use bt_facts::{Content, Fact, Shape, cells_of, holds};
use bt_model::Request;
use bt_parts::{Kind, Part};
use bt_place::Numbers;
use hint_placement::Sketch;
use hint_streamlining::Choice;
use std::alloc::{AllocError, Global};

/// That a belt or an underground piece stands where a sketch has it; none of a splitter.
fn standing(part: &Part) -> Option<Choice> {
    let shape = match part.kind {
        Kind::Belt => Shape::Belt,
        Kind::Entrance => Shape::Entrance,
        Kind::Exit => Shape::Exit,
        Kind::Splitter => return None,
    };
    Some(Choice {
        fact: holds(part.cell, shape, part.dir),
        holds: true,
    })
}

/// That the parts of a sketch stand where it has them.
fn shown(alloc: Global, sketch: &Sketch) -> Result<Vec<Choice>, AllocError> {
    let mut choices = Vec::new(alloc);
    for (splitter, part) in &sketch.splitters {
        choices.push(Choice {
            fact: Fact::At(*splitter, part.cell, part.dir),
            holds: true,
        })?;
    }
    for part in &sketch.others {
        if let Some(choice) = standing(part) {
            choices.push(choice)?;
        }
    }
    Ok(choices)
}

/// That nothing stands on any cell.
fn nothing(alloc: Global, request: &Request) -> Result<Vec<Choice>, AllocError> {
    let mut choices = Vec::new(alloc);
    for cell in &cells_of(alloc, request.rect())? {
        choices.push(Choice {
            fact: Fact::Kind(*cell, Content::Empty),
            holds: true,
        })?;
    }
    Ok(choices)
}

/// The plan that the parts of a sketch stand where it has them, and nothing on other cells.
pub fn plan_of_sketch(
    alloc: Global,
    formula: &Formula,
    request: &Request,
    sketch: &Sketch,
) -> Result<Plan, AllocError> {
    let numbers = Numbers::new(alloc, request)?;
    let mut plan = Plan::new(alloc, 0);
    let always = Turn::always();
    let parts = shown(alloc, sketch)?;
    push_choices(alloc, &mut plan, formula, &numbers, &parts, always, true)?;
    let rest = nothing(alloc, request)?;
    push_choices(alloc, &mut plan, formula, &numbers, &rest, always, false)?;
    Ok(plan)
}

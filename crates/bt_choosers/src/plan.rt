//! Plans: what is decided before a chooser is asked, and when the search restarts. Nothing is claimed of a plan.
ghost use Rattle.std.specs.Prelude.{IfSome};
ghost use Rattle.bt_cnf.specs.Truths.{LacksValue};

use crate::focus::Focus;
use bt_cnf::{Lit, Values, is_lit_false, lacks_value};
use std::alloc::{AllocError, Global};

/// While which steps a part of a plan serves. The steps of the log are counted in stretches of `steps` steps, which are
/// numbered from 0: the part serves in those whose number is `number` modulo `of`. A length or a modulus of 0 is taken
/// for 1.
#[derive(Clone, Copy)]
pub struct Turn {
    pub steps: u64,
    pub of: u64,
    pub number: u64,
}

impl Turn {
    /// The turn of a part that always serves.
    pub fn always() -> Turn {
        Turn {
            steps: 1,
            of: 1,
            number: 0,
        }
    }

    /// Whether the part serves after so many steps of the log.
    fn serves(self, steps: u64) -> bool {
        steps / self.steps.max(1) % self.of.max(1) == self.number
    }
}

/// Literals that are made true in turn, where they are unset when a choice is due.
#[derive(Drop)]
pub struct Part {
    lits: Vec<Lit>,
    turn: Turn,
    is_brittle: bool,
    /// Since the last conflict the literals before this place are set.
    at: usize,
}

impl Part {
    /// A part that serves in its turn. A brittle one is given up for good once one of its literals is false when that
    /// would be made true. Literals of variables that the formula doesn't have are passed over.
    pub fn new(lits: Vec<Lit>, turn: Turn, is_brittle: bool) -> Part {
        Part {
            lits,
            turn,
            is_brittle,
            at: 0,
        }
    }

    /// The first literal whose variable has no value, where there is one. A brittle part is given up where a literal
    /// before that is false.
    fn pick(&mut self, values: &Values) -> Option<Lit>
        ensures { IfSome result (λ l. LacksValue values.now l.var) }
    {
        for place in self.at..self.lits.len() {
            let Some(lit) = self.lits.get(place).copied() else {
                return None;
            };
            self.at = place;
            if lacks_value(values, lit.var) {
                return Some(lit);
            }
            if self.is_brittle && is_set_false(values, &lit) {
                self.lits.clear();
                return None;
            }
        }
        self.at = self.lits.len();
        None
    }
}

/// Whether a literal is false. One of a variable that the formula lacks isn't.
fn is_set_false(values: &Values, lit: &Lit) -> bool {
    lit.var.place() < values.len() && is_lit_false(values, lit)
}

/// After how many steps the search restarts: after as many as the numbers of Luby's sequence (1, 1, 2, 1, 1, 2, 4, ..)
/// times a unit say, or never where the unit is 0.
#[derive(Clone, Copy)]
struct Restarts {
    unit: u64,
    /// Which number of the sequence it is, but for repetitions: where its lowest bit is `times`, the next number is 1.
    round: u64,
    /// The number of the sequence.
    times: u64,
    /// The steps after which the next restart is due.
    due: u64,
}

impl Restarts {
    /// Restarts by the numbers of Luby's sequence, from its first on, times a unit.
    fn by(unit: u64) -> Restarts {
        Restarts {
            unit,
            round: 1,
            times: 1,
            due: unit,
        }
    }

    /// Whether a restart is due after so many steps. Then the next one is due by the sequence's next number.
    fn is_due(&mut self, steps: u64) -> bool {
        if self.unit == 0 || steps < self.due {
            return false;
        }
        if self.round & self.round.wrapping_neg() == self.times {
            self.round = self.round.wrapping_add(1);
            self.times = 1;
        } else {
            self.times = self.times.wrapping_mul(2);
        }
        self.due = steps.saturating_add(self.unit.saturating_mul(self.times));
        true
    }
}

/// What a search decides first, and when it restarts. The parts serve in their order, each from its first literal; where
/// all of them are set, a chooser is asked.
#[derive(Drop)]
pub struct Plan {
    parts: Vec<Part>,
    restarts: Restarts,
    focus: Option<Focus>,
}

impl Plan {
    /// A plan without parts. The search restarts after as many steps as the numbers of Luby's sequence times `unit` say,
    /// and never where that is 0.
    pub fn new(alloc: Global, unit: u64) -> Plan {
        Plan {
            parts: Vec::new(alloc),
            restarts: Restarts::by(unit),
            focus: None,
        }
    }

    /// A plan without parts, over so many variables: what the conflicts of the search met decides which variable is set
    /// next, and when the search restarts.
    pub fn by_conflicts(alloc: Global, variables: usize) -> Result<Plan, AllocError> {
        Ok(Plan {
            parts: Vec::new(alloc),
            restarts: Restarts::by(0),
            focus: Some(Focus::new(alloc, variables)?),
        })
    }

    /// Whether conflicts decide which variable is set next.
    pub fn is_by_conflicts(&self) -> bool {
        self.focus.is_some()
    }

    /// Adds a part behind the others.
    pub fn push(&mut self, part: Part) -> Result<(), AllocError> {
        self.parts.push(part)?;
        Ok(())
    }

    /// The literal of the first part that serves after so many steps of the log and has one, or else that which
    /// conflicts decide. None where neither has any.
    pub fn pick(&mut self, steps: u64, values: &Values) -> Option<Lit>
        ensures { IfSome result (λ l. LacksValue values.now l.var) }
    {
        for part in &mut self.parts {
            if part.turn.serves(steps) {
                if let Some(lit) = part.pick(values) {
                    return Some(lit);
                }
            }
        }
        match &mut self.focus {
            Some(focus) => focus.pick(values),
            None => None,
        }
    }

    /// Takes which variables a conflict met, by their numbers, and at how many levels the literals of the clause became
    /// false that is learnt from it. Nothing is done with it where conflicts don't decide.
    pub fn learn(&mut self, met: &[usize], levels: u32) {
        if let Some(focus) = &mut self.focus {
            focus.learn(met, levels);
        }
    }

    /// Takes the literals of the trail from a place on, which are going to be unset.
    pub fn release(&mut self, trail: &[Lit], from: usize) {
        if let Some(focus) = &mut self.focus {
            focus.release(trail, from);
        }
    }

    /// Has each part begin with its first literal again, since literals may be unset by now.
    pub fn begin(&mut self) {
        for part in &mut self.parts {
            part.at = 0;
        }
    }

    /// Whether the search restarts after so many steps.
    pub fn is_restart_due(&mut self, steps: u64) -> bool {
        let is_due = match &mut self.focus {
            Some(focus) => focus.is_restart_due(),
            None => false,
        };
        self.restarts.is_due(steps) || is_due
    }
}

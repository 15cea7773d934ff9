//! Decisions and restarts by what the last conflicts met. Nothing is claimed of them.
//!
//! Activities (Moskewicz and others, in Chaff), saved phases (Pipatsrisawat and Darwiche) and restarts by levels (Audemard
//! and Simon, in Glucose): one of these alone helps little; together they refute the eight to eight balancer in 7x7 by
//! 20,219 steps where a chooser by learnt clauses took 50,533.
ghost use Rattle.std.specs.Prelude.{IfSome};
ghost use Rattle.bt_cnf.specs.Truths.{LacksValue};

use crate::pace::Pace;
use crate::score::Score;
use crate::waiting::Waiting;
use bt_cnf::{Lit, Values, lacks_value};
use std::alloc::{AllocError, Global};

/// Decides the variable that the most of the last conflicts met, each of which counts a ninth more than the one before,
/// and sets it as it was set last, at first to false.
#[derive(Drop)]
pub struct Focus {
    waiting: Waiting,
    bump: Score,
    /// For each variable, whether it was set to true last.
    phases: Vec<bool>,
    pace: Pace,
}

impl Focus {
    /// A focus over so many variables, before the first conflict.
    pub fn new(alloc: Global, variables: usize) -> Result<Focus, AllocError> {
        Ok(Focus {
            waiting: Waiting::new(alloc, variables)?,
            bump: Score::first_bump(),
            phases: vec![in alloc; false; variables]?,
            pace: Pace::new(),
        })
    }

    /// A literal of the first waiting variable that has no value, set as it was set last. None where there is none. The
    /// variables up to it wait no longer.
    pub fn pick(&mut self, values: &Values) -> Option<Lit>
        ensures { IfSome result (λ l. LacksValue values.now l.var) }
    {
        for _ in 0..self.waiting.len() {
            let place = self.waiting.pop()?;
            if place < values.len() {
                let var = values.id_of(place);
                if lacks_value(values, var) {
                    let positive = self.phases.get(place).copied().unwrap_or(false);
                    return Some(Lit { var, positive });
                }
            }
        }
        None
    }

    /// Remembers how the variables of the trail from a place on are set, and lets them wait again, since they are going
    /// to be unset.
    pub fn release(&mut self, trail: &[Lit], from: usize) {
        for place in from..trail.len() {
            let lit = trail[place];
            if let Some(phase) = self.phases.get_mut(lit.var.place()) {
                *phase = lit.positive;
            }
            self.waiting.push(lit.var.place());
        }
    }

    /// Takes which variables a conflict met, by their numbers, and at how many levels the literals of the clause became
    /// false that is learnt from it.
    pub fn learn(&mut self, met: &[usize], levels: u32) {
        for variable in met {
            self.waiting.raise(*variable, self.bump);
        }
        self.bump = self.bump.grown();
        self.pace.count(levels);
    }

    /// Whether a restart is due. Where it is, the clauses up to the next one are counted anew.
    pub fn is_restart_due(&mut self) -> bool {
        self.pace.is_due()
    }
}

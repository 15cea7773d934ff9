//! The refutation that a proof has.
use crate::checker::Checker;
use crate::hints::Tracer;
use crate::index::Index;
use crate::numbers::{Token, Tokens};
use crate::trail::Number;
use bt_cnf::Lbool;
use hint_clauses::Literal;
use std::alloc::{AllocError, Global};

/// Why a proof isn't taken.
#[derive(Clone, Copy, PartialEq, Eq)]
pub enum Refusal {
    /// The formula has no line `p cnf V C`, or another number of clauses, or a literal beyond its variables.
    Formula,
    /// The step of the proof with this number, from 1 on, is no clause of the formula's variables.
    Step(usize),
    /// The proof ends, and nothing false follows.
    Open,
    /// The step with this number isn't shown by propagation (a RAT step is none that is).
    Unshown(usize),
    Memory,
}

impl From<AllocError> for Refusal {
    fn from(_error: AllocError) -> Refusal {
        Refusal::Memory
    }
}

/// A clause of a proof that comes or goes.
#[derive(Clone, Copy)]
struct Event {
    clause: Number,
    comes: bool,
    step: usize,
}

/// A step that is needed: its clause, and where its hints end.
#[derive(Clone, Copy)]
pub struct Step {
    pub clause: Number,
    pub end: usize,
}

/// The steps that are needed, the last first, and the hints of each.
#[derive(Drop)]
pub struct Steps {
    pub checker: Checker,
    /// How many clauses the formula has.
    pub formula: usize,
    pub steps: Vec<Step>,
    /// The hints of the empty clause, so many, and then those of the steps.
    pub hints: Vec<Number>,
    pub empty: usize,
}

/// What a proof is read with.
#[derive(Drop)]
struct Reading {
    variables: usize,
    checker: Checker,
    index: Index,
    literals: Vec<Literal>,
    events: Vec<Event>,
}

/// The literal that a number is: a variable from 1 on, negative where it is denied. None where it isn't of so many
/// variables.
fn literal_of(number: i64, variables: usize) -> Option<Literal> {
    let variable = (number.unsigned_abs() as usize).checked_sub(1)?;
    if variable < variables {
        Literal::new(variable, number > 0)
    } else {
        None
    }
}

/// Reads literals up to a 0. Whether it came, and all before it were literals of so many variables.
fn read_literals(
    tokens: &mut Tokens,
    variables: usize,
    literals: &mut Vec<Literal>,
) -> Result<bool, AllocError> {
    literals.clear();
    for _ in 0..tokens.len() {
        match tokens.next() {
            Some(Token::Number(0)) => return Ok(true),
            Some(Token::Number(number)) => match literal_of(number, variables) {
                Some(literal) => literals.push(literal)?,
                None => return Ok(false),
            },
            _ => return Ok(false),
        }
    }
    Ok(false)
}

/// The numbers of variables and of clauses that the line `p cnf` names, behind comments.
fn head(tokens: &mut Tokens) -> Option<(usize, usize)> {
    for _ in 0..tokens.len() {
        match tokens.next()? {
            Token::Word(b'p') => break,
            Token::Word(b'c') => tokens.pass_line(),
            _ => return None,
        }
    }
    let _ = tokens.next()?;
    match (tokens.next()?, tokens.next()?) {
        (Token::Number(variables), Token::Number(clauses)) if variables >= 0 && clauses >= 0 => {
            Some((variables as usize, clauses as usize))
        }
        _ => None,
    }
}

impl Reading {
    /// Nothing read over so many variables.
    fn new(alloc: Global, variables: usize) -> Result<Reading, AllocError> {
        Ok(Reading {
            variables,
            checker: Checker::new(alloc, variables)?,
            index: Index::new(alloc, variables)?,
            literals: Vec::new(alloc),
            events: Vec::new(alloc),
        })
    }

    /// Adds the clause of a step that was read; tells a clause where all its literals are false then.
    fn take(&mut self, alloc: Global, step: usize) -> Result<Option<Number>, AllocError> {
        let (clause, fails) = self.checker.add(&self.literals)?;
        self.index.add(&self.literals, clause)?;
        self.events.push(Event {
            clause,
            comes: true,
            step,
        })?;
        if fails {
            return Ok(Some(clause));
        }
        self.checker.propagate(alloc, self.variables)
    }

    /// Reads the clauses of the formula, and tells one that is false where they alone make it so.
    fn read_formula(
        &mut self,
        alloc: Global,
        tokens: &mut Tokens,
        clauses: usize,
    ) -> Result<Option<Number>, Refusal> {
        let mut conflict = None;
        for _ in 0..clauses {
            if !read_literals(tokens, self.variables, &mut self.literals)? {
                return Err(Refusal::Formula);
            }
            let (number, fails) = self.checker.add(&self.literals)?;
            self.index.add(&self.literals, number)?;
            if fails && conflict.is_none() {
                conflict = Some(number);
            }
        }
        match conflict {
            Some(number) => Ok(Some(number)),
            None => Ok(self.checker.propagate(alloc, self.variables)?),
        }
    }

    /// Takes the clause that was read away, where it is there, has two literals or more, and none became true by it.
    fn take_away(&mut self, step: usize) -> Result<(), AllocError> {
        if self.literals.len() < 2 {
            return Ok(());
        }
        let Some(clause) = self.index.take(&self.checker.database, &self.literals) else {
            return Ok(());
        };
        let is_reason = match self.checker.database.get(clause).first() {
            Some(first) => {
                self.checker.trail.value(*first) == Lbool::True
                    && self.checker.trail.reason(*first) == Some(clause)
            }
            None => false,
        };
        if !is_reason {
            self.checker.database.set_there(clause, false);
            self.events.push(Event {
                clause,
                comes: false,
                step,
            })?;
        }
        Ok(())
    }

    /// Reads the steps of a proof, up to the one with which a clause is false, and tells that clause.
    fn read_proof(&mut self, alloc: Global, tokens: &mut Tokens) -> Result<Number, Refusal> {
        for step in 1..=tokens.len() {
            let before = *tokens;
            let comes = match tokens.next() {
                None => return Err(Refusal::Open),
                Some(Token::Word(b'd')) => false,
                Some(_) => {
                    *tokens = before;
                    true
                }
            };
            if !read_literals(tokens, self.variables, &mut self.literals)? {
                return Err(Refusal::Step(step));
            }
            if !comes {
                self.take_away(step)?;
                continue;
            }
            if let Some(conflict) = self.take(alloc, step)? {
                return Ok(conflict);
            }
        }
        Err(Refusal::Open)
    }
}

/// Takes a step's clause away again, and all that followed of it; what follows of others all the same is made true
/// anew.
fn undo(
    alloc: Global,
    checker: &mut Checker,
    variables: usize,
    clause: Number,
) -> Result<(), AllocError> {
    checker.database.set_there(clause, false);
    let first = checker.database.get(clause).first().copied();
    let Some(literal) = first else {
        return Ok(());
    };
    if checker.trail.reason(literal) != Some(clause) {
        return Ok(());
    }
    let mut place = 0usize;
    for (at, other) in checker.trail.literals().iter().enumerate() {
        if *other == literal {
            place = at;
        }
    }
    checker.cut(place);
    checker.start_over();
    let _ = checker.propagate(alloc, variables)?;
    Ok(())
}

/// Makes the literals of a step's clause false, and all that follows true. A clause that is false then, or by which one
/// of the literals was true before; none where there is none, and the step isn't shown.
fn refuted(
    alloc: Global,
    checker: &mut Checker,
    variables: usize,
    clause: Number,
) -> Result<Option<Number>, AllocError> {
    for place in 0..checker.database.get(clause).len() {
        let Some(literal) = checker.database.get(clause).get(place).copied() else {
            break;
        };
        match checker.trail.value(literal) {
            Lbool::True => return Ok(checker.trail.reason(literal)),
            Lbool::Unset => checker.trail.push(literal.negated(), None)?,
            Lbool::False => {}
        }
    }
    checker.propagate(alloc, variables)
}

/// The refutation that a text has: the formula in DIMACS, and the proof behind it, a step a line, as DRAT has them.
pub fn refutation(alloc: Global, text: &[u8]) -> Result<Steps, Refusal> {
    let mut tokens = Tokens::new(text);
    let Some((variables, clauses)) = head(&mut tokens) else {
        return Err(Refusal::Formula);
    };
    let mut reading = Reading::new(alloc, variables)?;
    let conflict = match reading.read_formula(alloc, &mut tokens, clauses)? {
        Some(conflict) => conflict,
        None => reading.read_proof(alloc, &mut tokens)?,
    };
    trimmed(alloc, reading, clauses, conflict)
}

/// The steps that are needed, of a proof by which this clause becomes false. The proof is gone through from its end: a
/// clause that it dropped comes back, one that it added goes, and where a later step needs that, it is shown by what
/// stood there before. So what no later step needs is never shown.
fn trimmed(
    alloc: Global,
    reading: Reading,
    formula: usize,
    conflict: Number,
) -> Result<Steps, Refusal> {
    let Reading {
        variables,
        mut checker,
        events,
        ..
    } = reading;
    let mut tracer = Tracer::new(alloc, variables)?;
    let mut hints = Vec::new(alloc);
    let mut steps = Vec::new(alloc);
    tracer.trace(alloc, &mut checker, conflict, &mut hints)?;
    let empty = hints.len();
    for event in events.iter().rev() {
        if !event.comes {
            checker.bring_back(event.clause)?;
            continue;
        }
        undo(alloc, &mut checker, variables, event.clause)?;
        if checker.database.is_core(event.clause) {
            show(
                alloc,
                &mut checker,
                &mut tracer,
                variables,
                *event,
                &mut hints,
            )?;
            add_step(&mut steps, event.clause, hints.len())?;
        }
    }
    Ok(Steps {
        checker,
        formula,
        steps,
        hints,
        empty,
    })
}

/// Adds a step that is needed.
fn add_step(steps: &mut Vec<Step>, clause: Number, end: usize) -> Result<(), AllocError> {
    steps.push(Step { clause, end })?;
    Ok(())
}

/// Shows a step by propagation, and puts its hints behind a list. Refuses one that isn't shown so.
fn show(
    alloc: Global,
    checker: &mut Checker,
    tracer: &mut Tracer,
    variables: usize,
    event: Event,
    hints: &mut Vec<Number>,
) -> Result<(), Refusal> {
    let standing = checker.trail.len();
    let Some(conflict) = refuted(alloc, checker, variables, event.clause)? else {
        return Err(Refusal::Unshown(event.step));
    };
    tracer.assume(checker.database.get(event.clause), true);
    tracer.trace(alloc, checker, conflict, hints)?;
    tracer.assume(checker.database.get(event.clause), false);
    checker.cut(standing);
    Ok(())
}

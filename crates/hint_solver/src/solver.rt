//! The calls of a search for models.
use crate::dropping::{Lemma, drop_unused, drop_worse};
use crate::order::Order;
use crate::phases::Phases;
use crate::rounds::Rounds;
use crate::tracing::{Lesson, Tracer};
use bt_random::Random;
use hint_clauses::{Conflict, Literal, Reason, Search};
use std::alloc::{AllocError, Global};

/// So many clauses are learnt at most before the worse half of them is dropped.
const MOST_LEMMAS: usize = 6_000;

/// After so many conflicts a search restarts.
const RESTART: u64 = 64;

/// The level of what is taken for granted.
const GRANTED: usize = 1;

/// The level of what is wished in a trial.
const WISHED: usize = 2;

/// What a trial comes to.
#[derive(Clone, Copy, PartialEq, Eq)]
pub enum Answer {
    /// The literals that are true now give each clause a true one.
    Found,
    /// No model has what was taken for granted and wished.
    Nothing,
    /// There were as many conflicts as may be.
    Spent,
}

/// A search for models of clauses.
#[derive(Drop)]
pub struct Solver {
    search: Search,
    order: Order,
    tracer: Tracer,
    lemmas: Vec<Lemma>,
    /// How many literals the clauses that were given have.
    length: usize,
    /// The literals that turned out to be true for good, and are not yet made so.
    certain: Vec<Literal>,
    phases: Phases,
    /// The variables that have no value where only what is taken for granted is true.
    open: Vec<usize>,
    /// Whether no contradiction was found.
    is_open: bool,
    conflicts: u64,
    /// Whether it is searched thoroughly.
    is_thorough: bool,
}

impl Solver {
    /// A solver without clauses over so many variables.
    pub fn new(alloc: Global, variables: usize) -> Result<Solver, AllocError> {
        Ok(Solver {
            search: Search::new(alloc, variables)?,
            order: Order::new(alloc, variables)?,
            tracer: Tracer::new(alloc, variables)?,
            lemmas: Vec::new(alloc),
            length: 0,
            certain: Vec::new(alloc),
            phases: Phases::new(alloc, variables)?,
            open: Vec::new(alloc),
            is_open: true,
            conflicts: 0,
            is_thorough: false,
        })
    }

    /// Adds a clause, before the first search.
    pub fn add(&mut self, literals: &[Literal]) -> Result<(), AllocError> {
        match literals {
            [] => self.is_open = false,
            [only] => self.certain.push(*only)?,
            [one, other] => self.search.watches.join(*one, *other)?,
            _ => {
                let _ = self.search.attach(literals)?;
            }
        }
        self.length = self.search.clauses.len();
        Ok(())
    }

    /// Has a variable chosen early, and as true where nothing speaks against it.
    pub fn wish(&mut self, variable: usize) {
        self.order.prefer(variable);
        self.phases.wish(variable);
    }

    /// How many conflicts there were.
    pub fn conflicts(&self) -> u64 {
        self.conflicts
    }

    /// Whether a literal is true now.
    pub fn is_true(&self, literal: Literal) -> bool {
        self.search.trail.values().is_true(literal)
    }

    /// Takes back what is true at levels behind this one.
    fn go_back(&mut self, level: usize) -> Result<(), AllocError> {
        let end = self.search.trail.end_of(level);
        for _ in 0..self.search.trail.literals().len() {
            let Some(literal) = self.search.trail.pop(end) else {
                break;
            };
            self.phases.set(literal);
            if level > 0 {
                self.order.push(literal.variable())?;
            }
        }
        self.search.trail.end(level);
        Ok(())
    }

    /// Makes literals true, and what follows of each. Whether that can be.
    fn make_true(&mut self, alloc: Global, literals: &[Literal]) -> Result<bool, AllocError> {
        for literal in literals {
            if !self.search.trail.choose(*literal)? {
                return Ok(false);
            }
            if self.search.propagate(alloc)?.is_some() {
                return Ok(false);
            }
        }
        Ok(true)
    }

    /// Makes true what turned out to be so for good. Whether that can be.
    fn make_certain(&mut self, alloc: Global) -> Result<bool, AllocError> {
        let certain = std::mem::replace(&mut self.certain, Vec::new(alloc));
        if self.is_open {
            self.is_open = self.make_true(alloc, &certain)?;
        }
        Ok(self.is_open)
    }

    /// Lists the variables that have no value.
    fn list_open(&mut self) -> Result<(), AllocError> {
        self.open.clear();
        for variable in 0..self.phases.len() {
            if let Some(literal) = Literal::new(variable, true) {
                let values = self.search.trail.values();
                if !values.is_true(literal) && !values.is_false(literal) {
                    self.open.push(variable)?;
                }
            }
        }
        Ok(())
    }

    /// Drops lemmas: in a thorough search those that weren't used, and else the worse ones where there are too many.
    fn drop_lemmas(&mut self, alloc: Global) -> Result<(), AllocError> {
        let (search, lemmas) = (&mut self.search, &mut self.lemmas);
        if self.is_thorough {
            let used = self.tracer.take_used(alloc);
            drop_unused(alloc, search, lemmas, &used, self.length)
        } else if lemmas.len() > MOST_LEMMAS {
            drop_worse(alloc, search, lemmas, self.length)
        } else {
            Ok(())
        }
    }

    /// Takes literals for granted until this is called again. Whether that can be.
    pub fn grant(&mut self, alloc: Global, literals: &[Literal]) -> Result<bool, AllocError> {
        self.go_back(0)?;
        if !self.make_certain(alloc)? {
            return Ok(false);
        }
        self.drop_lemmas(alloc)?;
        self.search.trail.begin()?;
        if !self.make_true(alloc, literals)? {
            return Ok(false);
        }
        self.list_open()?;
        Ok(true)
    }

    /// Begins a trial: forgets how variables were set, and raises the scores of `raised` of them, drawn by chance.
    fn prepare(
        &mut self,
        alloc: Global,
        raised: usize,
        random: &mut Random,
    ) -> Result<(), AllocError> {
        self.go_back(GRANTED)?;
        self.phases.reset(&self.open);
        for _ in 0..raised {
            if let Some(variable) = self.open.get(random.below(self.open.len())) {
                self.order.raise(*variable);
            }
        }
        self.order.refill(alloc, &self.open)
    }

    /// A literal of the variable that is chosen next. None where all have a value.
    fn next_choice(&mut self) -> Option<Literal> {
        for _ in 0..self.order.len() {
            let variable = self.order.pop()?;
            let literal = Literal::new(variable, self.phases.get(variable))?;
            let values = self.search.trail.values();
            if !values.is_true(literal) && !values.is_false(literal) {
                return Some(literal);
            }
        }
        None
    }

    /// Adds the clause that was learnt last, and makes its first literal true.
    fn keep(&mut self, lesson: Lesson) -> Result<(), AllocError> {
        match self.tracer.literals() {
            [] => Ok(()),
            [only] => {
                self.certain.push(*only)?;
                self.search.trail.push(*only, Reason::Choice)
            }
            [one, other] => {
                self.search.watches.join(*one, *other)?;
                self.search.trail.push(*one, Reason::Either(*other))
            }
            [one, ..] => {
                if let Some(span) = self.search.attach(self.tracer.literals())? {
                    let levels = lesson.levels;
                    self.lemmas.push(Lemma {
                        span,
                        levels,
                        is_used: true,
                    })?;
                    self.search.trail.push(*one, Reason::Clause(span))?;
                }
                Ok(())
            }
        }
    }

    /// Lets the next conflict add more to scores.
    fn grow(&mut self, alloc: Global) -> Result<(), AllocError> {
        self.order.grow();
        if self.is_thorough && self.order.is_full() {
            self.order.refill(alloc, &self.open)?;
        }
        Ok(())
    }

    /// Learns a clause from a conflict, goes back to where all its literals but the first are false, though not to
    /// before what is wished, and adds the clause.
    fn learn(&mut self, alloc: Global, conflict: Conflict) -> Result<(), AllocError> {
        if self.is_thorough {
            self.phases.note(&self.search.trail)?;
        }
        let lesson = self
            .tracer
            .learn(alloc, &self.search, &mut self.order, conflict)?;
        self.grow(alloc)?;
        self.conflicts = self.conflicts.saturating_add(1);
        self.go_back(lesson.back.max(WISHED))?;
        self.keep(lesson)
    }

    /// Makes the next choice. Whether there was one to make.
    fn choose(&mut self) -> Result<bool, AllocError> {
        let Some(literal) = self.next_choice() else {
            return Ok(false);
        };
        self.search.trail.begin()?;
        self.search.trail.push(literal, Reason::Choice)?;
        Ok(true)
    }

    /// One step: what follows, and then a lesson or a choice. What the trial comes to, where it ends: with the conflict
    /// of number `last` at the latest.
    fn step(&mut self, alloc: Global, last: u64) -> Result<Option<Answer>, AllocError> {
        let Some(conflict) = self.search.propagate(alloc)? else {
            return if self.choose()? {
                Ok(None)
            } else {
                Ok(Some(Answer::Found))
            };
        };
        if self.search.trail.level() <= WISHED {
            return Ok(Some(Answer::Nothing));
        }
        self.learn(alloc, conflict)?;
        if self.conflicts >= last {
            return Ok(Some(Answer::Spent));
        }
        if !self.is_thorough && self.conflicts % RESTART == 0 {
            self.go_back(WISHED)?;
        }
        Ok(None)
    }

    /// The most steps with so many conflicts: before each, and behind the last, every variable is chosen at most once.
    fn most_steps(&self, conflicts: u64) -> u64 {
        let choices = (self.phases.len() as u64).saturating_add(1);
        conflicts.saturating_add(1).saturating_mul(choices)
    }

    /// Goes on with at most so many conflicts.
    fn run(&mut self, alloc: Global, conflicts: u64) -> Result<Answer, AllocError> {
        let last = self.conflicts.saturating_add(conflicts);
        for _ in 0..self.most_steps(conflicts) {
            if let Some(answer) = self.step(alloc, last)? {
                return Ok(answer);
            }
        }
        Ok(Answer::Spent)
    }

    /// Looks for a model that has what is taken for granted and, too, these literals, with at most so many conflicts.
    /// The scores of so many variables are raised by chance before.
    pub fn attempt(
        &mut self,
        alloc: Global,
        literals: &[Literal],
        conflicts: u64,
        raised: usize,
        random: &mut Random,
    ) -> Result<Answer, AllocError> {
        self.prepare(alloc, raised, random)?;
        self.search.trail.begin()?;
        if !self.make_true(alloc, literals)? {
            return Ok(Answer::Nothing);
        }
        self.run(alloc, conflicts)
    }

    /// Begins a thorough search.
    fn begin_thorough(&mut self, alloc: Global, random: &mut Random) -> Result<(), AllocError> {
        self.is_thorough = true;
        self.tracer.be_thorough(true);
        self.phases.begin(self.conflicts);
        let _ = self.grant(alloc, &[])?;
        for variable in &self.open {
            self.order.stir(*variable, random);
        }
        Ok(())
    }

    /// Ends it.
    fn end_thorough(&mut self) {
        self.is_thorough = false;
        self.tracer.be_thorough(false);
    }

    /// A round of a thorough search, with at most so many conflicts.
    fn search_once(
        &mut self,
        alloc: Global,
        conflicts: u64,
        random: &mut Random,
    ) -> Result<Answer, AllocError> {
        if !self.grant(alloc, &[])? {
            return Ok(Answer::Nothing);
        }
        self.phases.change(self.conflicts, random);
        self.order.refill(alloc, &self.open)?;
        self.search.trail.begin()?;
        self.run(alloc, conflicts)
    }

    /// Looks for any model with at most so many conflicts, thoroughly: it restarts seldom, keeps of what it learns what
    /// it uses, and sets variables as where the most were set without a conflict.
    pub fn search(
        &mut self,
        alloc: Global,
        conflicts: u64,
        random: &mut Random,
    ) -> Result<Answer, AllocError> {
        self.begin_thorough(alloc, random)?;
        let end = self.conflicts.saturating_add(conflicts);
        let mut rounds = Rounds::new();
        let mut answer = Answer::Spent;
        for _ in 0..conflicts {
            let left = end.saturating_sub(self.conflicts);
            if left == 0 || answer != Answer::Spent {
                break;
            }
            answer = self.search_once(alloc, rounds.next().min(left), random)?;
        }
        self.end_thorough();
        Ok(answer)
    }
}

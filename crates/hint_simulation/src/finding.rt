//! Looking for a state that breaks a property, of those that simulations show the one that convinces most.
ghost use Rattle.std.specs.Prelude.{IfOk, IfSome, IsTrue};
ghost use Rattle.bt_flow.specs.States.{Fits};
ghost use Rattle.bt_flow.specs.Properties.{IsBreaking};
ghost use Rattle.hint_simulation.specs.Simulations.{IsCase};
ghost use Rattle.hint_simulation.specs.inner.Finding.{IsFound};

use crate::case::{Case, Choice};
use crate::exact::state_of;
use crate::rank::{Rank, rank_of};
use crate::simulation::{Found, simulate};
use crate::tries::{MOST_TRIES, Tries};
use bt_flow::{Judgement, Property, State, breaks};
use bt_net::Net;
use bt_random::Random;
use std::alloc::{AllocError, Global};

/// The most work, in steps of an edge, that is begun once a state is found.
const MORE_WORK: u64 = 1 << 21;

/// The most simulations that may show no state before nothing more is tried.
const MOST_FAILURES: u32 = 8;

/// Of the states that simulations show and that break a property one that convinces most, or none. The first that
/// is found is followed by as many tries as take little time.
pub fn simplest(alloc: Global, net: &Net, property: Property) -> Result<Option<State>, AllocError>
    ensures { IfOk result (λ found. IfSome found (IsBreaking net.now property)) }
{
    let full = Case::full(alloc, net)?;
    let mut search = Search::new(&full, property);
    let mut simplest = None;
    'tries: for _ in 0..MOST_TRIES {
        let Some(found) = search.next(alloc, net, property, &full)? else {
            break 'tries;
        };
        let state = breaking_state(alloc, net, property, &found)?;
        search.learn(state.is_some());
        if state.is_some() {
            simplest = state;
        }
    }
    Ok(simplest)
}

/// The state that a simulation shows, where it breaks a property.
fn breaking_state(
    alloc: Global,
    net: &Net,
    property: Property,
    found: &Found,
) -> Result<Option<State>, AllocError>
    requires { IsFound net.now found.now }
    ensures { IfOk result (λ state. IfSome state (IsBreaking net.now property)) }
{
    let Some(state) = state_of(alloc, net, found)? else {
        return Ok(None);
    };
    if is_breaking(net, property, &state) {
        Ok(Some(state))
    } else {
        Ok(None)
    }
}

/// Whether a state breaks a property, and no sum that this asks for leaves 128 bits.
fn is_breaking(net: &Net, property: Property, state: &State) -> bool
    requires { Fits net.now state.now }
    ensures { IsTrue result → IsBreaking net.now property state.now }
{
    // Its fractions are in lowest terms by its type.
    let _ = state.flows();
    match breaks(net, property, state) {
        Ok(Judgement::Passes) => true,
        Ok(Judgement::Fails { .. }) | Err(_) => false,
    }
}

/// How far the search is.
#[derive(Drop)]
struct Search {
    tries: Tries,
    random: Random,
    /// The rank of the state that was found, where one was.
    best: Option<Rank>,
    /// The rank of the simulation that was shown last.
    shown: Rank,
    /// How many steps of an edge were simulated.
    work: u64,
    /// After so much work nothing more is tried.
    enough: u64,
    /// How many simulations showed no state that breaks the property.
    failures: u32,
}

impl Search {
    /// The search that begins.
    fn new(full: &Case, property: Property) -> Search {
        Search {
            tries: Tries::new(full, property),
            random: Random::new(1),
            best: None,
            shown: Rank::NOTHING,
            work: 0,
            enough: u64::MAX,
            failures: 0,
        }
    }

    /// The next simulation that seems to break the property, and to convince more than the state that was found. None
    /// where enough is tried.
    fn next(
        &mut self,
        alloc: Global,
        net: &Net,
        property: Property,
        full: &Case,
    ) -> Result<Option<Found>, AllocError>
        requires { IsCase net.now full.now }
        ensures { IfOk result (λ found. IfSome found (IsFound net.now)) }
    {
        for _ in 0..MOST_TRIES {
            let Some(choice) = self.choice() else {
                return Ok(None);
            };
            let found = tried(alloc, net, property, full, choice, &mut self.random)?;
            self.count(net, found.simulated.steps);
            self.shown = rank_of(net, property, full, &found);
            if self.is_better() {
                return Ok(Some(found));
            }
        }
        Ok(None)
    }

    /// What is tried next, none where enough is tried.
    fn choice(&mut self) -> Option<Choice> {
        if self.work >= self.enough || self.failures >= MOST_FAILURES {
            None
        } else {
            self.tries.choice()
        }
    }

    /// Counts the work of a simulation.
    fn count(&mut self, net: &Net, steps: u32) {
        self.tries.count(steps);
        let work = u64::from(steps).saturating_mul(net.edges().len() as u64);
        self.work = self.work.saturating_add(work);
    }

    /// Whether what was shown last breaks the property clearly, and convinces more than what was found.
    fn is_better(&self) -> bool {
        let convinces = match self.best {
            Some(best) => self.shown.convinces_more(best),
            None => true,
        };
        convinces && self.shown.is_clear()
    }

    /// Learns whether what was shown last gives a state that breaks the property. The first such state limits the work
    /// that follows.
    fn learn(&mut self, breaks: bool) {
        if !breaks {
            self.failures = self.failures.saturating_add(1);
            return;
        }
        if self.best.is_none() {
            self.enough = self.work.saturating_add(MORE_WORK);
        }
        self.best = Some(self.shown);
        self.tries.leave_parts();
    }
}

/// The simulation of a choice.
fn tried(
    alloc: Global,
    net: &Net,
    property: Property,
    full: &Case,
    choice: Choice,
    random: &mut Random,
) -> Result<Found, AllocError>
    requires { IsCase net.now full.now }
    ensures { IfOk result (IsFound net.now) }
{
    let case = full.chosen(alloc, property, choice, random)?;
    let simulated = simulate(alloc, net, &case.loads, &case.rooms)?;
    Ok(Found { case, simulated })
}

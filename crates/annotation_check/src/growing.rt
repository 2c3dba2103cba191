//! Numbers of pairs of states that grow until no edge asks for more.

ghost use Rattle.std.specs.Prelude.{◌≡◌, ◌*◌, ◌<◌, ◌≤◌, vec_len, length, map, Some, slice_index_or, Contains};
ghost use Rattle.std.specs.Prelude.{IsTrue, MatchBool, IfOk, OnOk, IfSome, IfNone, SomeIff, ◌↔◌};
ghost use Rattle.cobuchi_automata.specs.Edges.{edge_trees};
ghost use Rattle.machines.specs.MachineView.{move_tree};
ghost use Rattle.annotation_check.specs.Annotations.{IsAnnotation, IsLeast, number_of_pair};
ghost use Rattle.annotation_check.specs.internal.Pairs.{AreMoveListings, pairs_with, ArePairs};
ghost use Rattle.annotation_check.specs.internal.Higher.{is_higher};
ghost use Rattle.annotation_check.specs.internal.Steps.{after_step};

use crate::listing::Listing;
use crate::stepping::{KeptSteps, Step, steps_of};
use base_library::NoMemory;
use cobuchi_automata::Edge;
use machines::Move;
use std::alloc::Global;

/// A number that a pair of states gets.
#[derive(Clone, Copy)]
pub(crate) struct Rise {
    /// The machine's state.
    pub(crate) machine_state: u32,
    /// The automaton's state.
    pub(crate) automaton_state: u32,
    /// The number.
    pub(crate) number: u32,
}

/// Numbers of pairs, and the rises that were not looked at since.
#[derive(Drop)]
pub(crate) struct Growth {
    /// The number of each pair, where it has one.
    pub(crate) numbers: Vec<Option<u32>>,
    /// What is to be looked at.
    pub(crate) risen: Vec<Rise>,
}

impl Growth {
    ghost use Rattle.annotation_check.specs.internal.Growth.{pair_place, numbers_after, risen_after};

    /// Gives a pair a number, if that is higher than the one it has.
    fn raise(&mut self, states: u32, rise: Rise) -> Result<(), NoMemory>
        requires { pair_place states rise < length self.old.numbers.items }
        ensures numbers { OnOk result (self.new.numbers.items ≡ numbers_after states self.old.numbers.items rise) }
        ensures risen { OnOk result (self.new.risen.items ≡ risen_after states self.old.numbers.items self.old.risen.items rise) }
    {
        let place = rise.machine_state as usize * states as usize + rise.automaton_state as usize;
        if is_higher(self.numbers[place], rise.number) {
            self.risen.push(rise)?;
            self.numbers[place] = Some(rise.number);
        }
        Ok(())
    }

    /// Whether a pair still has the number that it rose to.
    fn has(&self, states: u32, rise: Rise) -> bool
        requires { pair_place states rise < length self.now.numbers.items }
        ensures { IsTrue result ↔ (slice_index_or self.now.numbers.items (pair_place states rise) None ≡ Some rise.number) }
    {
        let place = rise.machine_state as usize * states as usize + rise.automaton_state as usize;
        is_number(self.numbers[place], rise.number)
    }
}

/// Whether a number is higher than one that may be missing.
fn is_higher(number: Option<u32>, than: u32) -> bool
    ensures { result ≡ is_higher number than }
{
    match number {
        None => true,
        Some(number) => number < than,
    }
}

/// Whether a number is there, and is this one.
fn is_number(number: Option<u32>, wanted: u32) -> bool
    ensures { IsTrue result ↔ (number ≡ Some wanted) }
{
    match number {
        None => false,
        Some(number) => number == wanted,
    }
}

/// The moves of a machine and the edges of an automaton by the states that they leave, and a bound on the
/// numbers of pairs of states.
#[derive(Drop)]
pub(crate) struct Pairs {
    /// The moves in each state of the machine.
    pub(crate) moves: Vec<Vec<Move>>,
    /// The edges from each state of the automaton.
    pub(crate) edges: Vec<Vec<Edge>>,
    /// How many states the machine has.
    pub(crate) machine_states: u32,
    /// How many states the automaton has.
    pub(crate) automaton_states: u32,
    /// What no number may pass.
    pub(crate) bound: u32,
    pub(crate) ghost has_moves: { vec_len moves ≡ machine_states },
    pub(crate) ghost has_edges: { vec_len edges ≡ automaton_states },
    pub(crate) ghost are_pairs: { ArePairs (pairs_with moves.items edges.items machine_states automaton_states bound) },
}

impl Pairs {
    ghost use Rattle.annotation_check.specs.internal.PairsView.{pairs_tree};
    ghost use Rattle.annotation_check.specs.internal.Growth.{HasNone, IsOfPair, IsRightful, IsGrown, GrowsTo, IsStepFrom, HasSteps, AreKept, IsMet, IsDone};

    /// The moves in a state of the machine.
    fn moves_in(&self, state: u32) -> &[Move]
        requires { state < self.now.machine_states }
        ensures { (pairs_tree self.now).moves state ≡ map move_tree result.now }
    {
        self.moves[state as usize].as_slice()
    }

    /// The edges from a state of the automaton.
    fn edges_from(&self, state: u32) -> &[Edge]
        requires { state < self.now.automaton_states }
        ensures { (pairs_tree self.now).edges state ≡ edge_trees result.now }
    {
        self.edges[state as usize].as_slice()
    }

    /// The listing of the moves in each state of the machine.
    fn listings(&self, alloc: Global) -> Result<Vec<Listing>, NoMemory>
        ensures { IfOk result (λ listings. AreMoveListings (pairs_tree self.now).moves listings.items self.now.machine_states) }
    {
        let mut listings = Vec::new(alloc);
        for state in 0..self.machine_states {
            listings.push(Listing::of(alloc, self.moves_in(state))?)?;
        }
        Ok(listings)
    }

    /// The steps from a pair of states.
    fn steps_from(
        &self,
        alloc: Global,
        listings: &[Listing],
        rise: Rise,
    ) -> Result<Vec<Step>, NoMemory>
        requires of_pair { IsOfPair (pairs_tree self.now) rise }
        requires listed { AreMoveListings (pairs_tree self.now).moves listings.now self.now.machine_states }
        ensures { IfOk result (λ steps. HasSteps (pairs_tree self.now) rise.machine_state rise.automaton_state steps.items) }
    {
        let moves = &listings[rise.machine_state as usize];
        steps_of(alloc, moves, self.edges_from(rise.automaton_state))
    }

    /// What the pair after a step has at least, unless that passes the bound.
    fn rise_after(&self, rise: Rise, step: Step) -> Option<Rise>
        requires { rise.number ≤ self.now.bound }
        ensures { SomeIff result (after_step rise.number step ≤ self.now.bound) (record {
          machine_state = step.machine_state;
          automaton_state = step.automaton_state;
          number = after_step rise.number step;
        }) }
    {
        if step.rejecting && rise.number == self.bound {
            return None;
        }
        Some(Rise {
            machine_state: step.machine_state,
            automaton_state: step.automaton_state,
            number: rise.number + u32::from(step.rejecting),
        })
    }

    /// Gives the pair after a step what the step asks for. It answers false where that would pass the bound.
    fn follow_step(&self, growth: &mut Growth, rise: Rise, step: Step) -> Result<bool, NoMemory>
        requires grown { IsGrown (pairs_tree self.now) growth.old.numbers.items growth.old.risen.items }
        requires rightful { IsRightful (pairs_tree self.now) rise }
        requires is_step { IsStepFrom (pairs_tree self.now) rise.machine_state rise.automaton_state step }
        ensures { IfOk result (λ within. MatchBool within
            (GrowsTo (pairs_tree self.now) growth.old.numbers.items growth.old.risen.items growth.new.numbers.items growth.new.risen.items
            × IsMet (pairs_tree self.now) growth.new.numbers.items rise.number step)
            (HasNone (pairs_tree self.now))) }
    {
        let Some(next) = self.rise_after(rise, step) else {
            return Ok(false);
        };
        growth.raise(self.automaton_states, next)?;
        Ok(true)
    }

    /// Follows each step from a pair.
    fn follow(&self, growth: &mut Growth, rise: Rise, steps: &[Step]) -> Result<bool, NoMemory>
        requires grown { IsGrown (pairs_tree self.now) growth.old.numbers.items growth.old.risen.items }
        requires rightful { IsRightful (pairs_tree self.now) rise }
        requires are_steps { HasSteps (pairs_tree self.now) rise.machine_state rise.automaton_state steps.now }
        ensures { IfOk result (λ within. MatchBool within
            (GrowsTo (pairs_tree self.now) growth.old.numbers.items growth.old.risen.items growth.new.numbers.items growth.new.risen.items
            × IsDone (pairs_tree self.now) growth.new.numbers.items rise.machine_state rise.automaton_state rise.number)
            (HasNone (pairs_tree self.now))) }
    {
        for step in steps {
            if !self.follow_step(growth, rise, *step)? {
                return Ok(false);
            }
        }
        Ok(true)
    }

    /// Follows each step from a pair, which it matches when it looks at the pair for the first time, and keeps
    /// where there is room.
    fn look(
        &self,
        alloc: Global,
        listings: &[Listing],
        kept: &mut KeptSteps,
        growth: &mut Growth,
        rise: Rise,
    ) -> Result<bool, NoMemory>
        requires grown { IsGrown (pairs_tree self.now) growth.old.numbers.items growth.old.risen.items }
        requires rightful { IsRightful (pairs_tree self.now) rise }
        requires of_pair { IsOfPair (pairs_tree self.now) rise }
        requires listed { AreMoveListings (pairs_tree self.now).moves listings.now self.now.machine_states }
        requires kept { AreKept (pairs_tree self.now) kept.old.of_pairs.items }
        ensures followed { IfOk result (λ within. MatchBool within
            (GrowsTo (pairs_tree self.now) growth.old.numbers.items growth.old.risen.items growth.new.numbers.items growth.new.risen.items
            × IsDone (pairs_tree self.now) growth.new.numbers.items rise.machine_state rise.automaton_state rise.number)
            (HasNone (pairs_tree self.now))) }
        ensures kept { OnOk result (AreKept (pairs_tree self.now) kept.new.of_pairs.items) }
    {
        let place = rise.machine_state as usize * self.automaton_states as usize
            + rise.automaton_state as usize;
        if let Some(steps) = &kept.of_pairs[place] {
            return self.follow(growth, rise, steps);
        }
        let steps = self.steps_from(alloc, listings, rise)?;
        let within = self.follow(growth, rise, &steps)?;
        kept.keep(place, steps);
        Ok(within)
    }

    /// The least numbers, unless one of them passes the bound.
    pub(crate) fn least_numbers(&self, alloc: Global) -> Result<Option<Vec<Option<u32>>>, NoMemory>
        ensures numbers { IfOk result (λ found. IfSome found (λ numbers.
            IsAnnotation (pairs_tree self.now).edges (pairs_tree self.now).moves self.now.bound
            (number_of_pair self.now.automaton_states numbers.items))) }
        ensures least { IfOk result (λ found. IfSome found (λ numbers.
            IsLeast (pairs_tree self.now).edges (pairs_tree self.now).moves (number_of_pair self.now.automaton_states numbers.items))) }
        ensures length { IfOk result (λ found. IfSome found (λ numbers.
            vec_len numbers ≡ self.now.machine_states * self.now.automaton_states)) }
        ensures none { IfOk result (λ found. IfNone found (HasNone (pairs_tree self.now))) }
    {
        let pairs = self.machine_states as usize * self.automaton_states as usize;
        let mut growth = Growth {
            numbers: vec![in alloc; None; pairs]?,
            risen: Vec::new(alloc),
        };
        let start = Rise {
            machine_state: 0,
            automaton_state: 0,
            number: 0,
        };
        growth.raise(self.automaton_states, start)?;
        let listings = self.listings(alloc)?;
        let mut kept = KeptSteps::new(alloc, pairs)?;
        while let Some(rise) = growth.risen.pop() {
            if !growth.has(self.automaton_states, rise) {
                continue;
            }
            if !self.look(alloc, &listings, &mut kept, &mut growth, rise)? {
                return Ok(None);
            }
        }
        Ok(Some(growth.numbers))
    }
}

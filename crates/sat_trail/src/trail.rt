//! The trail and its calls.

ghost use Rattle.std.specs.Prelude.{◌≡◌, ◌↔◌, ◌+◌, ◌-◌, ◌^◌, ◌<◌, ◌≤◌, ℕ, true, false, length, List, [], ◌∷◌, ◌++◌, Some, None, IfOk, OnOk, OnErr, IfSome, IfNone, All, Contains, option_map, slice_get, position, take};
ghost use Rattle.clause_core.specs.Literals.{has};
ghost use Rattle.clause_core.specs.Clauses.{IsIncreasing, IsOver, has_pair};
ghost use Rattle.sat_trail.specs.Entries.{place_of, truth_of, literals_of};
ghost use Rattle.sat_trail.specs.States.{IsSound, started, decided, with_clause, undone, Propagates, EndsWith};

use crate::errors::TrailError;
use crate::stack::Stack;
use crate::watches::Watches;
use base_library::NoMemory;
use clause_core::{Clause, Cnf, Literal};
use std::alloc::Global;
use std::marker::Model;

/// The literals that are set, in the order of setting, over the clauses of a formula, which are borrowed, and
/// learnt ones.
#[derive(Drop)]
pub struct Trail<'f> {
    stack: Stack<'f>,
    watches: Watches,
}

impl<'f> Model for Trail<'f> {
    ghost use Rattle.std.specs.Prelude.{◌≡◌, false};
    ghost use Rattle.sat_trail.specs.States.{TrailState, IsSound};
    ghost use Rattle.sat_trail.specs.internal.Watching.{AreWatched};

    ghost Value = { TrailState };

    ghost view = { λ t. t.stack };

    ghost invariant = { λ t. IsSound t.stack × (t.stack.broken ≡ false → AreWatched t.stack t.watches) };
}

impl<'f> Trail<'f> {
    /// The trail of a formula: at level 0, with no literal set. `Tautology` comes exactly for the first
    /// clause that has a literal and its negation.
    pub fn new(alloc: Global, cnf: &'f Cnf) -> Result<Trail<'f>, TrailError>
        requires { length cnf.now.clauses < 2 ^ 32 }
        ensures ok { IfOk result (λ trail. trail ≡ started cnf.now.variables cnf.now.clauses) }
        ensures sound { IfOk result IsSound }
        ensures tautology { (place : ℕ) → (result ≡ Err (TrailError.Tautology place)) ↔ (position has_pair cnf.now.clauses ≡ Some place) }
    {
        if let Some(place) = cnf.clauses.first_tautology() {
            return Err(TrailError::Tautology(place as u32));
        }
        match Trail::with_learnt(alloc, cnf, Vec::new(alloc)) {
            Ok(trail) => Ok(trail),
            Err(_) => Err(TrailError::NoMemory),
        }
    }

    /// The trail of a formula and learnt clauses behind its own: at level 0, with no literal set. No clause has a
    /// literal and its negation.
    pub fn with_learnt(
        alloc: Global,
        cnf: &'f Cnf,
        learnt: Vec<Clause>,
    ) -> Result<Trail<'f>, NoMemory>
        requires few { length cnf.now.clauses + length learnt.items < 2 ^ 32 }
        requires over { All (IsOver cnf.now.variables) learnt.items }
        requires formula { All (λ clause. has_pair clause ≡ false) cnf.now.clauses }
        requires no_pairs { All (λ clause. has_pair clause ≡ false) learnt.items }
        ensures ok { IfOk result (λ trail. trail ≡ started cnf.now.variables (cnf.now.clauses ++ learnt.items)) }
        ensures sound { IfOk result IsSound }
    {
        let stack = Stack::new(alloc, cnf, learnt)?;
        let watches = Watches::new(alloc, cnf.variables, &cnf.clauses)?;
        Ok(Trail { stack, watches })
    }

    /// Opens the next level with this literal.
    pub fn decide(&mut self, literal: Literal) -> Result<(), NoMemory>
        requires usable { self.old.broken ≡ false }
        requires over { literal.index < self.old.variables }
        requires unassigned { truth_of self.old.entries literal ≡ None }
        ensures ok { OnOk result (self.new ≡ decided self.old literal) }
        ensures sound { IsSound self.new }
        ensures err { OnErr result (self.new.broken ≡ true) }
    {
        self.stack.decide(literal)
    }

    /// Sets the one unassigned literal of each clause whose other literals are all false, until there is none or a
    /// clause is false: then it answers the number of such a clause.
    pub fn propagate(&mut self) -> Result<Option<u32>, NoMemory>
        requires { self.old.broken ≡ false }
        ensures ok { OnOk result (Propagates self.old self.new) }
        ensures ends { IfOk result (λ answer. EndsWith answer self.new) }
        ensures sound { IsSound self.new }
        ensures err { OnErr result (self.new.broken ≡ true) }
    {
        match self.watches.propagate(&mut self.stack) {
            Ok(conflict) => Ok(conflict),
            Err(error) => {
                self.stack.give_up();
                Err(error)
            }
        }
    }

    /// Adds a clause at the end, and answers its number.
    pub fn learn(&mut self, clause: Clause) -> Result<u32, NoMemory>
        requires usable { self.old.broken ≡ false }
        requires over { IsOver self.old.variables clause }
        requires no_pair { has_pair clause ≡ false }
        requires few { length self.old.clauses + 1 < 2 ^ 32 }
        ensures ok { OnOk result (self.new ≡ with_clause self.old clause) }
        ensures number { IfOk result (λ number. number ≡ length self.old.clauses) }
        ensures sound { IsSound self.new }
        ensures err { OnErr result (self.new.broken ≡ true) }
    {
        self.stack.learn(clause)
    }

    /// Takes back what was set at levels above this one. The present level is then the smaller of the
    /// two.
    pub fn undo_to(&mut self, level: u32)
        requires { self.old.broken ≡ false }
        ensures value { self.new ≡ undone self.old level }
        ensures in_place { self.new.entries ≡ take (length self.new.entries) self.old.entries }
        ensures sound { IsSound self.new }
    {
        self.stack.undo_to(level);
        self.watches.undo(level, self.stack.set_count());
    }

    /// Whether the literal is true; none exactly where its variable is unassigned.
    pub fn value(&self, literal: Literal) -> Option<bool>
        requires usable { self.now.broken ≡ false }
        requires over { literal.index < self.now.variables }
        ensures { result ≡ truth_of self.now.entries literal }
    {
        self.stack.value(literal)
    }

    /// The present level, 0 at first.
    pub fn level(&self) -> u32
        requires { self.now.broken ≡ false }
        ensures value { result ≡ self.now.level }
        ensures sound { IsSound self.now }
        ensures few { result ≤ length self.now.entries }
    {
        self.stack.level()
    }

    /// How many literals are set.
    pub fn set_count(&self) -> u32
        requires { self.now.broken ≡ false }
        ensures value { result ≡ length self.now.entries }
        ensures few { result ≤ self.now.variables }
    {
        self.stack.set_count()
    }

    /// The literal at a place.
    pub fn set_at(&self, place: u32) -> Literal
        requires usable { self.now.broken ≡ false }
        requires within { place < length self.now.entries }
        ensures { option_map (λ e. e.literal) (slice_get self.now.entries place) ≡ Some result }
    {
        self.stack.set_at(place)
    }

    /// The level of the literal at a place.
    pub fn level_at(&self, place: u32) -> u32
        requires usable { self.now.broken ≡ false }
        requires within { place < length self.now.entries }
        ensures { option_map (λ e. e.level) (slice_get self.now.entries place) ≡ Some result }
    {
        self.stack.level_at(place)
    }

    /// The number of the clause that forced the literal at a place; none exactly where it was decided.
    pub fn reason_at(&self, place: u32) -> Option<u32>
        requires usable { self.now.broken ≡ false }
        requires within { place < length self.now.entries }
        ensures { option_map (λ e. e.reason) (slice_get self.now.entries place) ≡ Some result }
    {
        self.stack.reason_at(place)
    }

    /// The place of a variable's literal; none exactly where the variable is unassigned.
    pub fn set_place(&self, variable: u32) -> Option<u32>
        requires usable { self.now.broken ≡ false }
        requires positive { 0 < variable }
        requires over { variable ≤ self.now.variables }
        ensures { result ≡ place_of self.now.entries (variable - 1) }
    {
        self.stack.set_place(variable)
    }

    /// The literals of the clause of a number, by their rising numbers.
    pub fn clause(&self, number: u32) -> &[Literal]
        requires usable { self.now.broken ≡ false }
        requires given { number < length self.now.clauses }
        ensures value { slice_get self.now.clauses number ≡ Some result.now }
        ensures increasing { IsIncreasing result.now }
    {
        self.stack.clause(number)
    }
}

//! The literals that are set, and the calls that set and take them back.

ghost use Rattle.std.specs.Prelude.{◌≡◌, ◌+◌, ◌-◌, ◌^◌, ◌<◌, ◌≤◌, true, false, length, List, [], ◌∷◌, ◌++◌, Some, None, IfOk, OnOk, OnErr, IfSome, IfNone, All, Contains, option_map, slice_get, take};
ghost use Rattle.clause_core.specs.Literals.{has};
ghost use Rattle.clause_core.specs.Clauses.{IsIncreasing, IsOver, has_pair};
ghost use Rattle.sat_trail.specs.Entries.{entry_with, place_of, truth_of, literals_of, MayStand};
ghost use Rattle.sat_trail.specs.States.{IsSound, started, extended, decided, with_clause, undone};
ghost use Rattle.sat_trail.specs.internal.Tables.{MayLearn};

use crate::entries::Entry;
use crate::trail_clauses::TrailClauses;
use base_library::NoMemory;
use clause_core::{Clause, Cnf, Literal};
use std::alloc::Global;
use std::marker::Model;

/// The literals that are set, in the order of setting, over the clauses of a formula and learnt ones.
/// It has what a trail has but for propagation. Two tables say of each variable at which place it is
/// set, and of each literal whether it is true.
#[derive(Drop)]
pub struct Stack<'f> {
    variables: u32,
    clauses: TrailClauses<'f>,
    entries: Vec<Entry>,
    places: Vec<Option<u32>>,
    truths: Vec<bool>,
    level: u32,
    broken: bool,
}

impl<'f> Model for Stack<'f> {
    ghost use Rattle.std.specs.Prelude.{◌≡◌};
    ghost use Rattle.sat_trail.specs.States.{TrailState, IsSound};
    ghost use Rattle.sat_trail.specs.internal.Tables.{IsPlaceTable, AreTruths};

    ghost Value = { TrailState };

    ghost view = { λ t. record { variables = t.variables; clauses = t.clauses; entries = t.entries.items; level = t.level; broken = t.broken } };

    ghost invariant = { λ t. IsSound (record { variables = t.variables; clauses = t.clauses; entries = t.entries.items; level = t.level; broken = t.broken }) × IsPlaceTable t.variables t.places.items t.entries.items × AreTruths t.variables t.truths.items t.entries.items };
}

impl<'f> Stack<'f> {
    /// Over the clauses of a formula, and learnt ones behind them: at level 0, with no literal set.
    pub fn new(alloc: Global, cnf: &'f Cnf, learnt: Vec<Clause>) -> Result<Stack<'f>, NoMemory>
        requires few { length cnf.now.clauses + length learnt.items < 2 ^ 32 }
        requires over { All (IsOver cnf.now.variables) learnt.items }
        requires formula { All (λ clause. has_pair clause ≡ false) cnf.now.clauses }
        requires no_pairs { All (λ clause. has_pair clause ≡ false) learnt.items }
        ensures ok { IfOk result (λ trail. trail ≡ started cnf.now.variables (cnf.now.clauses ++ learnt.items)) }
        ensures sound { IfOk result IsSound }
    {
        Ok(Stack {
            variables: cnf.variables,
            clauses: TrailClauses::new(&cnf.clauses, learnt),
            entries: Vec::new(alloc),
            places: vec![in alloc; None; cnf.variables as usize]?,
            truths: vec![in alloc; false; 2 * cnf.variables as usize]?,
            level: 0,
            broken: false,
        })
    }

    /// Opens the next level with this literal.
    pub fn decide(&mut self, literal: Literal) -> Result<(), NoMemory>
        requires usable { self.old.broken ≡ false }
        requires over { literal.index < self.old.variables }
        requires unassigned { truth_of self.old.entries literal ≡ None }
        ensures ok { OnOk result (self.new ≡ decided self.old literal) }
        ensures sound { IsSound self.new }
        ensures err { OnErr result (self.new.broken ≡ true) }
    {
        let level = self.level() + 1;
        self.set(literal, level, None)
    }

    /// Adds a clause at the end, and answers its number.
    pub fn learn(&mut self, clause: Clause) -> Result<u32, NoMemory>
        requires { MayLearn self.old clause }
        ensures ok { OnOk result (self.new ≡ with_clause self.old clause) }
        ensures number { IfOk result (λ number. number ≡ length self.old.clauses) }
        ensures sound { IsSound self.new }
        ensures err { OnErr result (self.new.broken ≡ true) }
    {
        let number = self.clauses.len();
        if self.clauses.push(clause).is_err() {
            self.broken = true;
            return Err(NoMemory);
        }
        Ok(number)
    }

    /// Takes back what was set at levels above this one. The present level is then the smaller of the
    /// two.
    pub fn undo_to(&mut self, level: u32)
        requires { self.old.broken ≡ false }
        ensures value { self.new ≡ undone self.old level }
        ensures in_place { self.new.entries ≡ take (length self.new.entries) self.old.entries }
        ensures sound { IsSound self.new }
    {
        while let Some(last) = self.entries.last().copied() {
            if last.level <= level {
                break;
            }
            let _ = self.entries.pop();
            self.places[last.literal.index()] = None;
            self.truths[last.literal.code()] = false;
        }
        self.level = level.min(self.level);
    }

    /// Whether the literal is true; none exactly where its variable is unassigned.
    pub fn value(&self, literal: Literal) -> Option<bool>
        requires usable { self.now.broken ≡ false }
        requires over { literal.index < self.now.variables }
        ensures { result ≡ truth_of self.now.entries literal }
    {
        match self.places[literal.index()] {
            None => None,
            Some(place) => Some(self.entries[place as usize].literal == literal),
        }
    }

    /// The present level, 0 at first.
    pub fn level(&self) -> u32
        requires { self.now.broken ≡ false }
        ensures value { result ≡ self.now.level }
        ensures sound { IsSound self.now }
        ensures few { result ≤ length self.now.entries }
    {
        self.level
    }

    /// How many literals are set.
    pub fn set_count(&self) -> u32
        requires { self.now.broken ≡ false }
        ensures value { result ≡ length self.now.entries }
        ensures few { result ≤ self.now.variables }
    {
        self.entries.len() as u32
    }

    /// The literal at a place.
    pub fn set_at(&self, place: u32) -> Literal
        requires usable { self.now.broken ≡ false }
        requires within { place < length self.now.entries }
        ensures { option_map (λ e. e.literal) (slice_get self.now.entries place) ≡ Some result }
    {
        self.entries[place as usize].literal
    }

    /// The level of the literal at a place.
    pub fn level_at(&self, place: u32) -> u32
        requires usable { self.now.broken ≡ false }
        requires within { place < length self.now.entries }
        ensures { option_map (λ e. e.level) (slice_get self.now.entries place) ≡ Some result }
    {
        self.entries[place as usize].level
    }

    /// The number of the clause that forced the literal at a place; none exactly where it was decided.
    pub fn reason_at(&self, place: u32) -> Option<u32>
        requires usable { self.now.broken ≡ false }
        requires within { place < length self.now.entries }
        ensures { option_map (λ e. e.reason) (slice_get self.now.entries place) ≡ Some result }
    {
        self.entries[place as usize].reason
    }

    /// The place of a variable's literal; none exactly where the variable is unassigned.
    pub fn set_place(&self, variable: u32) -> Option<u32>
        requires usable { self.now.broken ≡ false }
        requires positive { 0 < variable }
        requires over { variable ≤ self.now.variables }
        ensures { result ≡ place_of self.now.entries (variable - 1) }
    {
        self.places[variable as usize - 1]
    }

    /// The literals of the clause of a number, by their rising numbers.
    pub fn clause(&self, number: u32) -> &[Literal]
        requires usable { self.now.broken ≡ false }
        requires given { number < length self.now.clauses }
        ensures value { slice_get self.now.clauses number ≡ Some result.now }
        ensures increasing { IsIncreasing result.now }
    {
        self.clauses.get(number)
    }

    /// How many clauses there are.
    pub fn clause_count(&self) -> u32
        ensures value { result ≡ length self.now.clauses }
        ensures over { All (IsOver self.now.variables) self.now.clauses }
    {
        self.clauses.len()
    }

    /// Sets a literal at the next place.
    pub fn set(&mut self, literal: Literal, level: u32, reason: Option<u32>) -> Result<(), NoMemory>
        requires { MayStand self.old.variables self.old.clauses self.old.entries (entry_with literal level reason) }
        ensures ok { OnOk result (self.new ≡ extended self.old (entry_with literal level reason)) }
        ensures sound { IsSound self.new }
        ensures err { OnErr result (self.new.broken ≡ true) }
    {
        let place = self.entries.len() as u32;
        let entry = Entry {
            literal,
            level,
            reason,
        };
        if self.entries.push(entry).is_err() {
            self.broken = true;
            return Err(NoMemory);
        }
        self.places[literal.index()] = Some(place);
        self.truths[literal.code()] = true;
        self.level = level;
        Ok(())
    }

    /// Whether the literal is true.
    pub fn is_true(&self, literal: Literal) -> bool
        requires { literal.index < self.now.variables }
        ensures { result ≡ has (literals_of self.now.entries) literal }
    {
        self.truths[literal.code()]
    }

    /// Says that memory ran out in a call: from then on the trail may only be dropped.
    pub fn give_up(&mut self)
        ensures value { self.new ≡ record self.old { broken = true } }
    {
        self.broken = true;
    }
}

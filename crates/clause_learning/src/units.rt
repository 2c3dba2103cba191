//! Clauses of one literal, for what is true at level 0.

ghost use Rattle.std.specs.Prelude.{◌≡◌, ◌↔◌, ◌&&◌, ◌+◌, ◌<◌, ◌≤◌, ◌^◌, ◌∷◌, [], ℕ, List, false, true, length, max, nat_lt, Some, None, slice_get, IsTrue, IfOk, IfSome, OnOk};
ghost use Rattle.clause_core.specs.Literals.{Lit, has};
ghost use Rattle.sat_trail.specs.States.{TrailState, IsSound};
ghost use Rattle.clause_learning.specs.Trails.{IsUsable};
ghost use Rattle.clause_learning.specs.Units.{AreUnits, ShowAlone, AddsHint, HasAdded, HaveNoted, MayHaveNoted};
ghost use Rattle.clause_learning.specs.Learning.{CanNote};

use crate::proof_log::ProofLog;
use base_library::NoMemory;
use clause_core::{Clause, Literal, clause_of};
use sat_trail::Trail;
use std::alloc::Global;

/// Clauses of one literal on a trail, by their variables. What is true at level 0 gets such a clause, with a
/// step of the log, so that the hints of later steps name that one, and need not show it again.
#[derive(Drop)]
pub struct Units {
    /// For each variable the number of a clause of one literal of it, where one is known.
    pub numbers: Vec<Option<u32>>,
    /// The clauses from this number on are not named.
    pub count: u32,
    /// The entries before this place were looked at.
    pub looked: u32,
    /// How many clauses were added to a trail.
    pub added: u32,
    /// How many may be added at most.
    pub most: u32,
}

impl Units {
    /// No clause is known, and at most so many may be added.
    pub fn new(alloc: Global, variables: u32, most: u32) -> Result<Units, NoMemory>
        ensures units { IfOk result (λ units. (t : TrailState) → t.variables ≡ variables → AreUnits t units) }
        ensures added { IfOk result (λ units. units.added ≡ 0) }
        ensures most { IfOk result (λ units. units.most ≡ most) }
    {
        Ok(Units {
            numbers: vec![in alloc; None; variables as usize]?,
            count: 0,
            looked: 0,
            added: 0,
            most,
        })
    }

    /// The number of a clause that has this literal alone; none where none is known.
    pub fn number_of(&self, trail: &Trail<'_>, literal: Literal) -> Option<u32>
        requires usable { trail.now.broken ≡ false }
        requires over { literal.index < trail.now.variables }
        requires units { AreUnits trail.now self.now }
        ensures { IfSome result (λ number. slice_get trail.now.clauses number ≡ Some (literal ∷ [])) }
    {
        let number = self.numbers[literal.index()]?;
        if number < self.count && is_alone(trail.clause(number), literal) {
            Some(number)
        } else {
            None
        }
    }

    /// Whether there are entries that were not looked at, and clauses may be added for them.
    pub fn are_due(&self, trail: &Trail<'_>) -> bool
        requires usable { trail.now.broken ≡ false }
        ensures { result ≡ (nat_lt self.now.added self.now.most && nat_lt self.now.looked (length trail.now.entries)) }
    {
        self.added < self.most && self.looked < trail.set_count()
    }

    /// Begins anew with a trail that has so many clauses.
    pub fn renew(&mut self, trail: &Trail<'_>, count: u32)
        requires trail { IsUsable trail.now }
        requires one_each { length self.old.numbers.items ≡ trail.now.variables }
        requires count { count ≡ length trail.now.clauses }
        ensures units { AreUnits trail.now self.new }
        ensures added { self.new.added ≡ self.old.added }
        ensures most { self.new.most ≡ self.old.most }
    {
        self.looked = 0;
        self.count = count;
        for number in 0..count {
            self.find(trail, number);
        }
    }

    /// Notes the clause of a number, where it has one literal.
    fn find(&mut self, trail: &Trail<'_>, number: u32)
        requires trail { IsUsable trail.now }
        requires given { number < length trail.now.clauses }
        requires one_each { length self.old.numbers.items ≡ trail.now.variables }
        ensures one_each { length self.new.numbers.items ≡ length self.old.numbers.items }
        ensures rest { self.new ≡ record self.old { numbers = self.new.numbers } }
    {
        let literals = trail.clause(number);
        if literals.len() == 1 {
            self.numbers[literals[0].index()] = Some(number);
        }
    }

    /// Gives what is true at level 0 clauses of one literal, as long as more may be added.
    pub fn note_all(
        &mut self,
        alloc: Global,
        trail: &mut Trail<'_>,
        proof_log: &mut ProofLog,
    ) -> Result<(), NoMemory>
        requires { CanNote trail.old proof_log.old self.old }
        ensures noted { OnOk result ((count : ℕ) × HaveNoted count trail.old proof_log.old trail.new proof_log.new × (self.new.added ≡ self.old.added + count)) }
        ensures units { OnOk result (AreUnits trail.new self.new) }
        ensures added { self.new.added ≤ self.new.most }
        ensures most { self.new.most ≡ self.old.most }
        ensures sound { OnOk result (IsSound trail.new) }
    {
        while self.looked < trail.set_count() {
            let place = self.looked;
            self.looked += 1;
            self.note_entry(alloc, trail, proof_log, place)?;
        }
        Ok(())
    }

    /// Gives the literal at a place a clause of its own, where it has none, and hints for it are known.
    fn note_entry(
        &mut self,
        alloc: Global,
        trail: &mut Trail<'_>,
        proof_log: &mut ProofLog,
        place: u32,
    ) -> Result<(), NoMemory>
        requires ready { CanNote trail.old proof_log.old self.old }
        requires within { place < length trail.old.entries }
        ensures noted { OnOk result (MayHaveNoted trail.old proof_log.old self.old trail.new proof_log.new self.new) }
        ensures units { OnOk result (AreUnits trail.new self.new) }
        ensures added { self.new.added ≤ self.new.most }
        ensures rest { self.new ≡ record self.old { numbers = self.new.numbers; count = self.new.count; added = self.new.added } }
    {
        let literal = trail.set_at(place);
        if self.added >= self.most || self.number_of(trail, literal).is_some() {
            return Ok(());
        }
        let Some(reason) = trail.reason_at(place) else {
            return Ok(());
        };
        if is_alone(trail.clause(reason), literal) {
            self.note(literal, reason);
            return Ok(());
        }
        let Some(hints) = self.hints_of(alloc, trail, reason, literal)? else {
            return Ok(());
        };
        self.add(alloc, trail, proof_log, literal, hints)
    }

    /// Notes that the clause of a number has this literal alone.
    fn note(&mut self, literal: Literal, number: u32)
        requires over { literal.index < length self.old.numbers.items }
        requires below { number + 1 < 2 ^ 32 }
        ensures one_each { length self.new.numbers.items ≡ length self.old.numbers.items }
        ensures count { self.new.count ≡ max self.old.count (number + 1) }
        ensures rest { self.new ≡ record self.old { numbers = self.new.numbers; count = self.new.count } }
    {
        self.numbers[literal.index()] = Some(number);
        self.count = self.count.max(number + 1);
    }

    /// Hints that show the clause of this literal alone from a clause that has it: the clauses of one literal for the
    /// opposites of its other literals, and the clause itself. None where one of them is not known.
    fn hints_of(
        &self,
        alloc: Global,
        trail: &Trail<'_>,
        number: u32,
        literal: Literal,
    ) -> Result<Option<Vec<u64>>, NoMemory>
        requires trail { IsUsable trail.now }
        requires given { number < length trail.now.clauses }
        requires member { (clause : List Lit) → slice_get trail.now.clauses number ≡ Some clause → has clause literal ≡ true }
        requires units { AreUnits trail.now self.now }
        ensures { IfOk result (λ found. IfSome found (λ hints. ShowAlone trail.now literal hints.items)) }
    {
        let mut hints = Vec::new(alloc);
        for other in trail.clause(number) {
            if !self.show(trail, literal, *other, &mut hints)? {
                return Ok(None);
            }
        }
        hints.push(u64::from(number) + 1)?;
        Ok(Some(hints))
    }

    /// Adds the hint for one of the literals of a clause that has this one, and answers whether it is known.
    fn show(
        &self,
        trail: &Trail<'_>,
        literal: Literal,
        other: Literal,
        hints: &mut Vec<u64>,
    ) -> Result<bool, NoMemory>
        requires usable { trail.now.broken ≡ false }
        requires over { other.index < trail.now.variables }
        requires units { AreUnits trail.now self.now }
        ensures { IfOk result (λ known. known ≡ true → AddsHint trail.now.clauses literal other hints.old.items hints.new.items) }
    {
        if other == literal {
            return Ok(true);
        }
        let Some(number) = self.number_of(trail, other.negated()) else {
            return Ok(false);
        };
        hints.push(u64::from(number) + 1)?;
        Ok(true)
    }

    /// Adds the clause of this literal alone, with a step of the log.
    fn add(
        &mut self,
        alloc: Global,
        trail: &mut Trail<'_>,
        proof_log: &mut ProofLog,
        literal: Literal,
        hints: Vec<u64>,
    ) -> Result<(), NoMemory>
        requires ready { CanNote trail.old proof_log.old self.old }
        requires room { self.old.added < self.old.most }
        requires shown { ShowAlone trail.old literal hints.items }
        ensures added { OnOk result (HasAdded trail.old proof_log.old self.old trail.new proof_log.new self.new) }
        ensures at_most { self.new.added ≤ self.old.added + 1 }
        ensures rest { self.new ≡ record self.old { numbers = self.new.numbers; count = self.new.count; added = self.new.added } }
    {
        let number = trail.learn(clause_with(alloc, literal)?)?;
        proof_log.add(alloc, clause_with(alloc, literal)?, hints.as_slice())?;
        self.note(literal, number);
        self.added += 1;
        Ok(())
    }
}

/// The clause of this literal alone.
fn clause_with(alloc: Global, literal: Literal) -> Result<Clause, NoMemory>
    ensures { IfOk result (λ clause. clause ≡ literal ∷ []) }
{
    let mut literals = Vec::new(alloc);
    literals.push(literal)?;
    clause_of(alloc, literals.as_slice())
}

/// Whether a clause has this literal alone.
fn is_alone(literals: &[Literal], literal: Literal) -> bool
    ensures { IsTrue result ↔ (literals.now ≡ literal ∷ []) }
{
    literals.len() == 1 && literals[0] == literal
}

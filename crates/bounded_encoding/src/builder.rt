//! Clauses made so far.

ghost use Rattle.std.specs.Prelude.{◌≡◌, ◌≤◌, ◌∷◌, ◌++◌, [], false, length, IfErr, OnOk, OnErr};
ghost use Rattle.clause_core.specs.Clauses.{in_order, has_pair};
ghost use Rattle.bounded_encoding.specs.Made.{with_clauses};
ghost use Rattle.bounded_encoding.specs.Refusing.{Refuses};
ghost use Rattle.bounded_encoding.specs.declared.errors.EncodeError.TheVariants.{Clauses};

use crate::errors::EncodeError;
use clause_core::{ClauseList, Literal, clause_of, is_tautology};
use std::alloc::Global;
use std::marker::Model;

/// Clauses made so far, and how many there may be at most.
#[derive(Drop)]
pub struct Builder {
    list: ClauseList,
    limit: u64,
}

impl Model for Builder {
    ghost use Rattle.std.specs.Prelude.{◌≤◌, length};
    ghost use Rattle.bounded_encoding.specs.Made.{Made};

    ghost Value = { Made };

    ghost view = { λ made. record { clauses = made.list; most = made.limit } };

    ghost invariant = { λ made. length made.list ≤ made.limit };
}

impl Builder {
    /// No clauses yet.
    pub fn new(alloc: Global, limit: u64) -> Builder
        ensures { result ≡ record { clauses = []; most = limit } }
    {
        Builder {
            list: ClauseList::new(alloc),
            limit,
        }
    }

    /// The clauses.
    pub fn into_list(self) -> ClauseList
        ensures list { result ≡ self.clauses }
        ensures within { length self.clauses ≤ self.most }
    {
        let Builder { list, .. } = self;
        list
    }

    /// Adds the clause of these literals, but for one with a literal and its negation. Nothing is added at an
    /// `Err`.
    pub fn add(&mut self, alloc: Global, literals: &[Literal]) -> Result<(), EncodeError>
        ensures added { OnOk result (self.new ≡ with_clauses self.old (literals.now ∷ [])) }
        ensures refused { Refuses result (with_clauses self.old (literals.now ∷ [])) }
        ensures unchanged { OnErr result (self.new ≡ self.old) }
    {
        let clause = clause_of(alloc, literals)?;
        if is_tautology(&clause) {
            return Ok(());
        }
        self.push(alloc, literals)
    }

    /// Adds the clause of these literals, none of which is the negation of another. Nothing is added at an `Err`.
    #[inline(always)]
    pub(crate) fn add_without_pair(
        &mut self,
        alloc: Global,
        literals: &[Literal],
    ) -> Result<(), EncodeError>
        requires unpaired { has_pair (in_order literals.now) ≡ false }
        ensures added { OnOk result (self.new ≡ with_clauses self.old (literals.now ∷ [])) }
        ensures refused { Refuses result (with_clauses self.old (literals.now ∷ [])) }
        ensures unchanged { OnErr result (self.new ≡ self.old) }
    {
        self.push(alloc, literals)
    }

    /// Adds a clause. Nothing is added at an `Err`.
    #[inline(always)]
    fn push(&mut self, alloc: Global, literals: &[Literal]) -> Result<(), EncodeError>
        ensures added { OnOk result (self.new ≡ record { clauses = self.old.clauses ++ in_order literals.now ∷ []; most = self.old.most }) }
        ensures refused { IfErr result (λ e. e ≡ Clauses → self.old.most ≤ length self.old.clauses) }
        ensures unchanged { OnErr result (self.new ≡ self.old) }
    {
        if self.list.len() as u64 >= self.limit {
            return Err(EncodeError::Clauses);
        }
        self.list.push(alloc, literals)?;
        Ok(())
    }
}

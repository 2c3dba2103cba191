//! Lists of clauses, whose literals lie behind each other.

ghost use Rattle.std.specs.Prelude.{◌≡◌, ◌<◌, ◌≤◌, ◌++◌, ◌∷◌, [], true, cond, length, take, Some, slice_get, slice_index_or, position, is_ok, IfOk, OnOk, OnErr};
ghost use Rattle.clause_core.specs.Clauses.{IsIncreasing, has_pair, in_order};
ghost use Rattle.clause_core.specs.internal.Parts.{Rise, start_of};

use crate::clauses::{clause_of, have_pair};
use crate::literals::Literal;
use base_library::NoMemory;
use std::alloc::Global;
use std::marker::Model;

/// A list of clauses. The literals of all of them lie behind each other, so that a clause takes four bytes and
/// those of its literals. A contract sees the list of the clauses. It has room for 2^32 - 1 literals.
#[derive(Drop)]
pub struct ClauseList {
    /// The literals of the first clause, then those of the second one, and so on.
    literals: Vec<Literal>,
    /// For each clause how many literals it and those before it have.
    ends: Vec<u32>,
}

impl Model for ClauseList {
    ghost use Rattle.std.specs.Prelude.{List, length};
    ghost use Rattle.clause_core.specs.Literals.{Lit};
    ghost use Rattle.clause_core.specs.internal.Parts.{parts, AreClauses};

    ghost Value = { List (List Lit) };

    ghost view = { λ list. parts 0 list.ends.items list.literals.items };

    ghost invariant = { λ list. AreClauses list.ends.items list.literals.items };
}

impl ClauseList {
    /// No clauses. They take no memory until one is added.
    pub fn new(alloc: Global) -> ClauseList
        ensures { result ≡ [] }
    {
        ClauseList {
            literals: Vec::new(alloc),
            ends: Vec::new(alloc),
        }
    }

    /// How many clauses there are.
    #[tactic(auto, using(crate::proofs::Parts::length_parts))]
    pub fn len(&self) -> usize
        ensures { result ≡ length self.now }
    {
        self.ends.len()
    }

    /// The literals of the clause at a place, from 0: by rising numbers.
    #[inline(always)]
    #[tactic(auto, using(crate::proofs::Parts::length_parts))]
    pub fn get(&self, place: usize) -> &[Literal]
        requires { place < length self.now }
        ensures value { slice_get self.now place ≡ Some result.now }
        ensures increasing { IsIncreasing result.now }
    {
        let (start, end) = bounds(self.ends.as_slice(), self.literals.len(), place);
        &self.literals[start..end]
    }

    /// The place of the first clause that has a literal and its negation.
    pub fn first_tautology(&self) -> Option<usize>
        ensures { result ≡ position has_pair self.now }
    {
        for place in 0..self.len() {
            if have_pair(self.get(place)) {
                return Some(place);
            }
        }
        None
    }

    /// Adds the clause of these literals at the end: by rising numbers, each once. An `Err` says that there is no
    /// room for so many literals; the list is then as before.
    #[inline(always)]
    pub fn push(&mut self, alloc: Global, literals: &[Literal]) -> Result<(), NoMemory>
        ensures ok { OnOk result (self.new ≡ self.old ++ in_order literals.now ∷ []) }
        ensures err { OnErr result (self.new ≡ self.old) }
    {
        let before = self.literals.len();
        match put_clause(alloc, &mut self.literals, &mut self.ends, literals) {
            Ok(()) => Ok(()),
            Err(error) => {
                self.literals.truncate(before);
                Err(error)
            }
        }
    }
}

/// Appends the literals of one more clause, and where they end. Some literals may have been appended at an `Err`, which
/// says that there is no room for so many literals.
#[inline(always)]
fn put_clause(
    alloc: Global,
    out: &mut Vec<Literal>,
    ends: &mut Vec<u32>,
    literals: &[Literal],
) -> Result<(), NoMemory>
    ensures begins { take (length out.old.items) out.new.items ≡ out.old.items }
    ensures literals { OnOk result (out.new.items ≡ out.old.items ++ in_order literals.now) }
    ensures ends { OnOk result (ends.new.items ≡ ends.old.items ++ length out.new.items ∷ []) }
    ensures none { OnErr result (ends.new.items ≡ ends.old.items) }
{
    put_in_order(alloc, out, literals)?;
    put_end(ends, out.len())
}

/// Where the literals of the clause at a place begin and end, of so many literals.
#[inline(always)]
#[tactic(auto, using(crate::proofs::Parts::end_below, crate::proofs::Parts::before_below))]
fn bounds(ends: &[u32], count: usize, place: usize) -> (usize, usize)
    requires rise { Rise 0 ends.now count }
    requires within { place < length ends.now }
    ensures start { result.0 ≡ start_of 0 ends.now place }
    ensures end { result.1 ≡ slice_index_or ends.now place 0 }
    ensures ordered { result.0 ≤ result.1 }
    ensures within { result.1 ≤ count }
{
    let end = ends[place] as usize;
    if place == 0 {
        (0, end)
    } else {
        (ends[place - 1] as usize, end)
    }
}

/// Appends where the literals of one more clause end, if there is room for so many literals. An `Err` says that there
/// is none.
#[inline(always)]
fn put_end(ends: &mut Vec<u32>, end: usize) -> Result<(), NoMemory>
    ensures { ends.new.items ≡ cond (is_ok result) (ends.old.items ++ end ∷ []) ends.old.items }
{
    if end > u32::MAX as usize {
        return Err(NoMemory);
    }
    ends.push(end as u32)?;
    Ok(())
}

/// Appends literals by rising numbers, each once. Some may have been appended at an `Err`, which says that memory ran
/// out.
#[inline(always)]
fn put_in_order(alloc: Global, out: &mut Vec<Literal>, literals: &[Literal]) -> Result<(), NoMemory>
    ensures begins { take (length out.old.items) out.new.items ≡ out.old.items }
    ensures ok { OnOk result (out.new.items ≡ out.old.items ++ in_order literals.now) }
{
    let before = out.len();
    if put_rising(out, literals)? {
        return Ok(());
    }
    out.truncate(before);
    put_sorted(alloc, out, literals)
}

/// Appends literals in any order, by rising numbers and each once. Nothing is appended at an `Err`, which says that
/// memory ran out.
#[inline(never)]
fn put_sorted(alloc: Global, out: &mut Vec<Literal>, literals: &[Literal]) -> Result<(), NoMemory>
    ensures { out.new.items ≡ cond (is_ok result) (out.old.items ++ in_order literals.now) out.old.items }
{
    let clause = clause_of(alloc, literals)?;
    out.extend_from_slice(clause.literals())
}

/// Appends literals as long as their numbers rise strictly, and answers whether all do. Some may have been appended at
/// an `Err`, which says that memory ran out.
#[inline(always)]
fn put_rising(out: &mut Vec<Literal>, literals: &[Literal]) -> Result<bool, NoMemory>
    ensures begins { take (length out.old.items) out.new.items ≡ out.old.items }
    ensures all { IfOk result (λ all. all ≡ true → out.new.items ≡ out.old.items ++ literals.now) }
    ensures rising { IfOk result (λ all. all ≡ true → IsIncreasing literals.now) }
{
    match literals {
        [] => Ok(true),
        [first, rest @ ..] => {
            out.push(*first)?;
            put_rising_after(out, *first, rest)
        }
    }
}

/// The same behind a first literal, which was appended.
#[inline(always)]
fn put_rising_after(
    out: &mut Vec<Literal>,
    first: Literal,
    literals: &[Literal],
) -> Result<bool, NoMemory>
    ensures begins { take (length out.old.items) out.new.items ≡ out.old.items }
    ensures all { IfOk result (λ all. all ≡ true → out.new.items ≡ out.old.items ++ literals.now) }
    ensures rising { IfOk result (λ all. all ≡ true → IsIncreasing (first ∷ literals.now)) }
{
    let mut last = first;
    for literal in literals {
        if !(last < *literal) {
            return Ok(false);
        }
        out.push(*literal)?;
        last = *literal;
    }
    Ok(true)
}

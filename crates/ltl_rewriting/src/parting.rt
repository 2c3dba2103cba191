//! Members of a list, of which those that hold always, or sometime, become one.

ghost use Rattle.std.specs.Prelude.{◌≡◌, ℕ, ◌&&◌, ◌||◌, map, IsTrue, IfOk, OnOk};
ghost use Rattle.ltl_formula.specs.LtlTree.{LtlTree, ltl_tree, ltl_formulas_of, top, bottom, conjunction, disjunction, until, release};
ghost use Rattle.ltl_formula.specs.LetterLoop.{LetterLoop, holds};
ghost use Rattle.ltl_rewriting.specs.SameMeaning.{MeansSame};
ghost use Rattle.ltl_rewriting.specs.internal.Members.{all_apart, any_apart};

use base_library::NoMemory;
use ltl_formula::{Ltl, LtlList};
use std::alloc::Global;

/// A conjunction that means the same as that of these members, where those that hold always are one.
#[tactic(auto, using(crate::proofs::PartedMembers::all_begun, crate::proofs::PartedMembers::all_ended))]
pub(crate) fn merged_all(alloc: Global, mut members: Vec<Ltl>) -> Result<Ltl, NoMemory>
    ensures { IfOk result (λ made. MeansSame (ltl_tree made) (conjunction (ltl_formulas_of (map ltl_tree members.items)))) }
{
    let mut always = Vec::new(alloc);
    let mut others = Vec::new(alloc);
    while let Some(member) = members.pop() {
        put_of_all(member, &mut always, &mut others)?;
    }
    let made = joined_all(alloc, always, others)?;
    Ok(made)
}

/// Puts a member of a conjunction to those that hold always, or to the others.
#[tactic(auto, using(crate::proofs::PartedMembers::all_others_put))]
fn put_of_all(member: Ltl, always: &mut Vec<Ltl>, others: &mut Vec<Ltl>) -> Result<(), NoMemory>
    ensures { OnOk result ((loop : LetterLoop) (i : ℕ) →
        all_apart loop (map ltl_tree always.new.items) (map ltl_tree others.new.items) i
        ≡ (holds loop (ltl_tree member) i && all_apart loop (map ltl_tree always.old.items) (map ltl_tree others.old.items) i)) }
{
    match member {
        Ltl::Release(left, right) => {
            if is_false(&left) {
                always.push(Box::into_inner(right))?;
            } else {
                others.push(Ltl::Release(left, right))?;
            }
        }
        other => others.push(other)?,
    }
    Ok(())
}

/// The conjunction of both lists, where the members of the first hold always.
#[tactic(auto, using(crate::proofs::PartedMembers::all_joined, crate::proofs::PartedMembers::all_alone))]
fn joined_all(alloc: Global, always: Vec<Ltl>, mut others: Vec<Ltl>) -> Result<Ltl, NoMemory>
    ensures { IfOk result (λ made. (loop : LetterLoop) (i : ℕ) →
        holds loop (ltl_tree made) i ≡ all_apart loop (map ltl_tree always.items) (map ltl_tree others.items) i) }
{
    if always.is_empty() {
        let made = all_of(alloc, others)?;
        return Ok(made);
    }
    let part = always_all(alloc, always)?;
    others.push(part)?;
    let made = all_of(alloc, others)?;
    Ok(made)
}

/// A disjunction that means the same as that of these members, where those that hold sometime are one.
#[tactic(auto, using(crate::proofs::PartedMembers::any_begun, crate::proofs::PartedMembers::any_ended))]
pub(crate) fn merged_any(alloc: Global, mut members: Vec<Ltl>) -> Result<Ltl, NoMemory>
    ensures { IfOk result (λ made. MeansSame (ltl_tree made) (disjunction (ltl_formulas_of (map ltl_tree members.items)))) }
{
    let mut awaited = Vec::new(alloc);
    let mut others = Vec::new(alloc);
    while let Some(member) = members.pop() {
        put_of_any(member, &mut awaited, &mut others)?;
    }
    let made = joined_any(alloc, awaited, others)?;
    Ok(made)
}

/// Puts a member of a disjunction to those that hold sometime, or to the others.
#[tactic(auto, using(crate::proofs::PartedMembers::any_others_put))]
fn put_of_any(member: Ltl, awaited: &mut Vec<Ltl>, others: &mut Vec<Ltl>) -> Result<(), NoMemory>
    ensures { OnOk result ((loop : LetterLoop) (i : ℕ) →
        any_apart loop (map ltl_tree awaited.new.items) (map ltl_tree others.new.items) i
        ≡ (holds loop (ltl_tree member) i || any_apart loop (map ltl_tree awaited.old.items) (map ltl_tree others.old.items) i)) }
{
    match member {
        Ltl::Until(left, right) => {
            if is_true(&left) {
                awaited.push(Box::into_inner(right))?;
            } else {
                others.push(Ltl::Until(left, right))?;
            }
        }
        other => others.push(other)?,
    }
    Ok(())
}

/// The disjunction of both lists, where the members of the first hold sometime.
#[tactic(auto, using(crate::proofs::PartedMembers::any_joined, crate::proofs::PartedMembers::any_alone))]
fn joined_any(alloc: Global, awaited: Vec<Ltl>, mut others: Vec<Ltl>) -> Result<Ltl, NoMemory>
    ensures { IfOk result (λ made. (loop : LetterLoop) (i : ℕ) →
        holds loop (ltl_tree made) i ≡ any_apart loop (map ltl_tree awaited.items) (map ltl_tree others.items) i) }
{
    if awaited.is_empty() {
        let made = any_of(alloc, others)?;
        return Ok(made);
    }
    let part = sometime_any(alloc, awaited)?;
    others.push(part)?;
    let made = any_of(alloc, others)?;
    Ok(made)
}

/// Whether a formula is false.
fn is_false(formula: &Ltl) -> bool
    ensures { IsTrue result → ltl_tree formula.now ≡ bottom }
{
    match formula {
        Ltl::False => true,
        _ => false,
    }
}

/// Whether a formula is true.
fn is_true(formula: &Ltl) -> bool
    ensures { IsTrue result → ltl_tree formula.now ≡ top }
{
    match formula {
        Ltl::True => true,
        _ => false,
    }
}

/// All of these.
fn all_of(alloc: Global, members: Vec<Ltl>) -> Result<Ltl, NoMemory>
    ensures { IfOk result (λ made. ltl_tree made ≡ conjunction (ltl_formulas_of (map ltl_tree members.items))) }
{
    Ok(Ltl::All(LtlList::from_vec(alloc, members)?))
}

/// All of these, always.
fn always_all(alloc: Global, members: Vec<Ltl>) -> Result<Ltl, NoMemory>
    ensures { IfOk result (λ made. ltl_tree made ≡ release bottom (conjunction (ltl_formulas_of (map ltl_tree members.items)))) }
{
    let merged = all_of(alloc, members)?;
    Ok(Ltl::Release(Box::new(alloc, Ltl::False)?, Box::new(alloc, merged)?))
}

/// Some of these.
fn any_of(alloc: Global, members: Vec<Ltl>) -> Result<Ltl, NoMemory>
    ensures { IfOk result (λ made. ltl_tree made ≡ disjunction (ltl_formulas_of (map ltl_tree members.items))) }
{
    Ok(Ltl::Any(LtlList::from_vec(alloc, members)?))
}

/// Some of these, sometime.
fn sometime_any(alloc: Global, members: Vec<Ltl>) -> Result<Ltl, NoMemory>
    ensures { IfOk result (λ made. ltl_tree made ≡ until top (disjunction (ltl_formulas_of (map ltl_tree members.items)))) }
{
    let merged = any_of(alloc, members)?;
    Ok(Ltl::Until(Box::new(alloc, Ltl::True)?, Box::new(alloc, merged)?))
}

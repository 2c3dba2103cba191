//! The values of terms and the truth of probes.

ghost use Rattle.std.specs.Prelude.{◌≡◌, ◌≤◌, ◌++◌, [], ◌∷◌, Some, IsSome, IfOk, OnOk, length, map, take, drop, option_map};
ghost use Rattle.tsl_terms.specs.TermTree.{term_tree, term_trees, probe_tree};
ghost use Rattle.tsl_terms.specs.Value.{value, values, truth};
ghost use Rattle.interp_core.specs.LeafValue.{leaf_value};

use crate::algebra::{Algebra, Judge};
use crate::leaves::Leaves;
use base_library::NoMemory;
use std::alloc::Global;
use tsl_terms::{Probe, Term, TermList};

/// The value of a term, where the leaves give the values of signals.
pub fn evaluate<A: Algebra>(
    alloc: Global,
    algebra: &A,
    leaves: &Leaves<A::Value>,
    term: &Term,
) -> Result<A::Value, NoMemory>
    requires had { IsSome (value (A.meanings algebra.now) (leaf_value A.seen leaves.now) (term_tree term.now)) }
    ensures { IfOk result (λ v. value (A.meanings algebra.now) (leaf_value A.seen leaves.now) (term_tree term.now) ≡ Some (A.seen v)) }
{
    match term {
        Term::Signal(signal) => copy_of(alloc, algebra, leaves, *signal),
        Term::Apply(function, arguments) => {
            let mut values = Vec::new(alloc);
            push_values(alloc, algebra, leaves, arguments, &mut values)?;
            algebra.apply(alloc, *function, values.as_slice())
        }
    }
}

/// A copy of the value of a signal.
fn copy_of<A: Algebra>(
    alloc: Global,
    algebra: &A,
    leaves: &Leaves<A::Value>,
    signal: u32,
) -> Result<A::Value, NoMemory>
    requires had { IsSome (leaf_value A.seen leaves.now signal) }
    ensures { IfOk result (λ v. leaf_value A.seen leaves.now signal ≡ Some (A.seen v)) }
{
    algebra.copy(alloc, leaves.value_of(signal).unwrap())
}

/// Puts the value of a term at the end of a list, where the leaves give the values of signals. The values of its
/// arguments stand there in between, so no list is made for them.
#[cycle(evaluation)]
pub fn push_value<A: Algebra>(
    alloc: Global,
    algebra: &A,
    leaves: &Leaves<A::Value>,
    term: &Term,
    found: &mut Vec<A::Value>,
) -> Result<(), NoMemory>
    requires had { IsSome (value (A.meanings algebra.now) (leaf_value A.seen leaves.now) (term_tree term.now)) }
    ensures { OnOk result (option_map (λ v. map A.seen found.old.items ++ v ∷ [])
        (value (A.meanings algebra.now) (leaf_value A.seen leaves.now) (term_tree term.now)) ≡ Some (map A.seen found.new.items)) }
{
    match term {
        Term::Signal(signal) => push_copy(alloc, algebra, leaves, *signal, found),
        Term::Apply(function, arguments) => {
            let before = found.len();
            push_values(alloc, algebra, leaves, arguments, found)?;
            apply_to_last(alloc, algebra, *function, before, found)
        }
    }
}

/// Puts a copy of the value of a signal at the end of a list.
fn push_copy<A: Algebra>(
    alloc: Global,
    algebra: &A,
    leaves: &Leaves<A::Value>,
    signal: u32,
    found: &mut Vec<A::Value>,
) -> Result<(), NoMemory>
    requires had { IsSome (leaf_value A.seen leaves.now signal) }
    ensures { OnOk result (option_map (λ v. map A.seen found.old.items ++ v ∷ []) (leaf_value A.seen leaves.now signal)
        ≡ Some (map A.seen found.new.items)) }
{
    found.push(copy_of(alloc, algebra, leaves, signal)?)?;
    Ok(())
}

/// Puts the value of a function in the place of its arguments, which are the values behind the first so many.
fn apply_to_last<A: Algebra>(
    alloc: Global,
    algebra: &A,
    function: u32,
    before: usize,
    found: &mut Vec<A::Value>,
) -> Result<(), NoMemory>
    requires had { IsSome ((A.meanings algebra.now).function function (map A.seen (drop before found.old.items))) }
    requires within { before ≤ length found.old.items }
    ensures { OnOk result (option_map (λ v. map A.seen (take before found.old.items) ++ v ∷ [])
        ((A.meanings algebra.now).function function (map A.seen (drop before found.old.items))) ≡ Some (map A.seen found.new.items)) }
{
    let value = algebra.apply(alloc, function, &found[before..])?;
    found.truncate(before);
    found.push(value)?;
    Ok(())
}

/// Puts the values of a list of terms, in its order, at the end of a list.
#[cycle(evaluation)]
pub fn push_values<A: Algebra>(
    alloc: Global,
    algebra: &A,
    leaves: &Leaves<A::Value>,
    terms: &TermList,
    found: &mut Vec<A::Value>,
) -> Result<(), NoMemory>
    requires had { IsSome (values (A.meanings algebra.now) (leaf_value A.seen leaves.now) (term_trees terms.now)) }
    ensures { OnOk result
        (option_map (λ vs. map A.seen found.old.items ++ vs)
        (values (A.meanings algebra.now) (leaf_value A.seen leaves.now) (term_trees terms.now)) ≡ Some (map A.seen found.new.items)) }
{
    let mut rest = terms;
    while let TermList::More(term, next) = rest {
        push_value(alloc, algebra, leaves, term, found)?;
        rest = next;
    }
    Ok(())
}

/// Whether a predicate holds of the values of its arguments.
pub fn test_term<J: Judge>(
    alloc: Global,
    judge: &J,
    leaves: &Leaves<J::Value>,
    probe: &Probe,
) -> Result<bool, NoMemory>
    requires had { IsSome (truth (J.meanings judge.now) (leaf_value J.seen leaves.now) (probe_tree probe.now)) }
    ensures { IfOk result (λ holds. truth (J.meanings judge.now) (leaf_value J.seen leaves.now) (probe_tree probe.now) ≡ Some holds) }
{
    let mut arguments = Vec::new(alloc);
    push_values(alloc, judge, leaves, &probe.arguments, &mut arguments)?;
    Ok(judge.test(probe.predicate, arguments.as_slice()))
}

//! What a program does at a step, and the values after it.

ghost use Rattle.std.specs.Prelude.{◌≡◌, ◌++◌, Some, IsSome, IfOk, map, option_map, if◌then◌else◌};
ghost use Rattle.base_library.specs.Options.{all_there};
ghost use Rattle.tsl_terms.specs.TermTree.{term_tree};
ghost use Rattle.tsl_terms.specs.Value.{value, truth};
ghost use Rattle.program_tree.specs.ProgramView.{program_tree};
ghost use Rattle.program_tree.specs.Walk.{walk};
ghost use Rattle.interp_core.specs.LeafValue.{leaf_value};

use base_library::NoMemory;
use interp_core::{Algebra, Judge, Leaves, push_value, test_term};
use program_tree::{Node, Program};
use std::alloc::Global;
use tsl_terms::Term;

/// What is done at a step: the term of each cell and then of each output, and the state to go to.
#[derive(Clone, Copy)]
pub(crate) struct Action<'a> {
    pub(crate) updates: &'a [Term],
    pub(crate) go: u32,
}

/// What a program does in a state, where the leaves give the values of signals.
pub(crate) fn action_in<'a, J: Judge>(
    alloc: Global,
    judge: &J,
    program: &'a Program,
    state: u32,
    leaves: &Leaves<J::Value>,
) -> Result<Action<'a>, NoMemory>
    requires acts { IsSome (walk (program_tree program.now) (truth (J.meanings judge.now) (leaf_value J.seen leaves.now)) state) }
    ensures { IfOk result (λ action.
        walk (program_tree program.now) (truth (J.meanings judge.now) (leaf_value J.seen leaves.now)) state
        ≡ Some (record { updates = map term_tree action.updates.now; go = action.go })) }
{
    let mut node = program.states.as_slice()[state as usize];
    loop {
        match &program.nodes.as_slice()[node as usize] {
            Node::If {
                test,
                then_node,
                else_node,
            } => {
                let holds = test_term(alloc, judge, leaves, test)?;
                node = chosen(holds, *then_node, *else_node);
            }
            Node::Set { updates, go } => {
                return Ok(Action {
                    updates: updates.as_slice(),
                    go: *go,
                });
            }
        }
    }
}

/// The node to go to.
fn chosen(holds: bool, then_node: u32, else_node: u32) -> u32
    ensures { result ≡ if holds then then_node else else_node }
{
    if holds { then_node } else { else_node }
}

/// The same values once more.
pub(crate) fn copies<A: Algebra>(
    alloc: Global,
    algebra: &A,
    values: &[A::Value],
) -> Result<Vec<A::Value>, NoMemory>
    ensures { IfOk result (λ vs. map A.seen vs.items ≡ map A.seen values.now) }
{
    let mut copies = Vec::new(alloc);
    for value in values {
        copies.push(algebra.copy(alloc, value)?)?;
    }
    Ok(copies)
}

/// A row's values, and then the value that each cell has at first.
pub(crate) fn first_values<A: Algebra>(
    alloc: Global,
    algebra: &A,
    row: &[A::Value],
    cells: &[u32],
) -> Result<Vec<A::Value>, NoMemory>
    requires had { IsSome (all_there (map (A.meanings algebra.now).initial cells.now)) }
    ensures { IfOk result (λ vs.
        option_map (λ cs. map A.seen row.now ++ cs) (all_there (map (A.meanings algebra.now).initial cells.now))
        ≡ Some (map A.seen vs.items)) }
{
    let mut values = copies(alloc, algebra, row)?;
    for cell in cells {
        values.push(algebra.initial(alloc, *cell)?)?;
    }
    Ok(values)
}

/// A row's values, and then the value of each of these terms.
pub(crate) fn next_values<A: Algebra>(
    alloc: Global,
    algebra: &A,
    leaves: &Leaves<A::Value>,
    row: &[A::Value],
    terms: &[Term],
) -> Result<Vec<A::Value>, NoMemory>
    requires had { IsSome (all_there (map (λ t. value (A.meanings algebra.now) (leaf_value A.seen leaves.now) (term_tree t)) terms.now)) }
    ensures { IfOk result (λ vs.
        option_map (λ cs. map A.seen row.now ++ cs)
        (all_there (map (λ t. value (A.meanings algebra.now) (leaf_value A.seen leaves.now) (term_tree t)) terms.now))
        ≡ Some (map A.seen vs.items)) }
{
    let mut values = copies(alloc, algebra, row)?;
    for term in terms {
        push_value(alloc, algebra, leaves, term, &mut values)?;
    }
    Ok(values)
}

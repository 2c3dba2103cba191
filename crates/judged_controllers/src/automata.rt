//! Automata of rewritten formulas.

ghost use Rattle.std.specs.Prelude.{◌≡◌, [], IfOk};
ghost use Rattle.tsl_terms.specs.FormulaTree.{formula_tree};
ghost use Rattle.tsl_terms.specs.SpecView.{spec_tree};
ghost use Rattle.ltl_formula.specs.LtlTree.{ltl_tree};
ghost use Rattle.letter_space.specs.SpaceView.{space_tree};
ghost use Rattle.letter_space.specs.SpecSpace.{spec_space};
ghost use Rattle.ltl_rewriting.specs.SameMeaning.{MeansSame};
ghost use Rattle.cobuchi_automata.specs.Edges.{edge_trees};
ghost use Rattle.machines.specs.declared.side.Side.TheVariants.{Controller};
ghost use Rattle.program_check.specs.Verdicts.{form_for, formula_for};
ghost use Rattle.judged_controllers.specs.Rewritten.{IsAutomatonFor};

use base_library::NoMemory;
use cobuchi_automata::{Automaton, BuildError, build};
use letter_space::Space;
use ltl_formula::Ltl;
use ltl_rewriting::simplified;
use std::alloc::Global;
use tsl_terms::{Formula, Spec, whole};
use underapprox::to_letters;

/// An automaton of a formula that means the same as the negation of the whole formula, rewritten before it is built. An
/// `Err` says that a limit of that formula's automaton is passed, or that memory ran out.
pub fn small_automaton(alloc: Global, spec: &Spec, space: &Space) -> Result<Automaton, BuildError>
    requires { space_tree space.now ≡ spec_space (spec_tree spec.now) }
    ensures { IfOk result (λ made. IsAutomatonFor (spec_tree spec.now) [] (edge_trees made.edges)) }
{
    let form = small_form(alloc, spec, space)?;
    let made = build(alloc, &form)?;
    Ok(made)
}

/// A formula that means the same as the negation of the whole formula.
fn small_form(alloc: Global, spec: &Spec, space: &Space) -> Result<Ltl, NoMemory>
    requires { space_tree space.now ≡ spec_space (spec_tree spec.now) }
    ensures { IfOk result (λ form. MeansSame (ltl_tree form) (form_for Controller (spec_tree spec.now) [])) }
{
    let formula = negated(alloc, spec)?;
    let form = to_letters(alloc, &formula, space)?;
    let small = simplified(alloc, &form)?;
    Ok(small)
}

/// The negation of the whole formula.
fn negated(alloc: Global, spec: &Spec) -> Result<Formula, NoMemory>
    ensures { IfOk result (λ formula. formula_tree formula ≡ formula_for Controller (spec_tree spec.now) []) }
{
    let formula = whole(alloc, spec)?;
    Ok(Formula::Not(Box::new(alloc, formula)?))
}

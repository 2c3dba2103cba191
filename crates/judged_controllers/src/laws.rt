//! The law that judging rests on: the function does nothing, and its contract is the law.

ghost use Rattle.std.specs.Prelude.{ℕ, List, Option};
ghost use Rattle.tsl_terms.specs.declared.operator.UnaryOperator.TheVariants.{Negation};
ghost use Rattle.tsl_terms.specs.Name.{Name};
ghost use Rattle.tsl_terms.specs.FormulaTree.{FormulaTree, unary};
ghost use Rattle.program_tree.specs.ProgramTree.{ProgramTree};
ghost use Rattle.tsl_meaning.specs.Promise.{EveryRunMeets};
ghost use Rattle.ltl_formula.specs.LtlTree.{LtlTree};
ghost use Rattle.letter_space.specs.SpaceTree.{SpaceTree, IsSpace};
ghost use Rattle.letter_space.specs.Bits.{HasBits};
ghost use Rattle.underapprox.specs.LetterForm.{letter_form};
ghost use Rattle.ltl_rewriting.specs.SameMeaning.{MeansSame};
ghost use Rattle.cobuchi_automata.specs.Automata.{StateTree, EdgeTree, IsAutomaton};
ghost use Rattle.machines.specs.MachineTree.{ControllerTree};
ghost use Rattle.machines.specs.Moves.{controller_moves};
ghost use Rattle.annotation_check.specs.Annotations.{edges_from, IsAnnotation};
ghost use Rattle.control_flow_model.specs.ProgramBits.{ProgramHasBits};
ghost use Rattle.control_flow_model.specs.ControllerOf.{IsControllerOf};

/// A program whose controller has an annotation, within any bound, for an automaton of a formula that means the same
/// as the negation of another one meets that one.
pub fn judged_programs_meet()
    ensures { (space : SpaceTree) (program : ProgramTree) (c : ControllerTree) (formula : FormulaTree) (form : LtlTree)
        (states : List StateTree) (edges : List EdgeTree) (bound : ℕ) (number : ℕ → ℕ → Option ℕ) →
        IsSpace space → ProgramHasBits space program → IsControllerOf space program c → HasBits space formula →
        MeansSame form (letter_form space (unary Negation formula)) → IsAutomaton form states edges →
        IsAnnotation (edges_from edges) (controller_moves space c) bound number →
        (names : List Name) → EveryRunMeets names program formula }
{}

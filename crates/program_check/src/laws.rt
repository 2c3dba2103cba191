//! The law that acceptance rests on, and laws of verdicts: each function does nothing, and its contract is the law.

ghost use Rattle.std.specs.Prelude.{◌≡◌, ℕ, List, Option};
ghost use Rattle.tsl_terms.specs.declared.operator.UnaryOperator.TheVariants.{Negation};
ghost use Rattle.tsl_terms.specs.Name.{Name};
ghost use Rattle.tsl_terms.specs.FormulaTree.{FormulaTree, unary};
ghost use Rattle.tsl_terms.specs.SpecTree.{SpecTree};
ghost use Rattle.program_tree.specs.ProgramTree.{ProgramTree};
ghost use Rattle.tsl_meaning.specs.Promise.{EveryRunMeets};
ghost use Rattle.letter_space.specs.SpaceTree.{SpaceTree, IsSpace};
ghost use Rattle.letter_space.specs.Bits.{HasBits};
ghost use Rattle.underapprox.specs.LetterForm.{letter_form};
ghost use Rattle.cobuchi_automata.specs.Automata.{StateTree, EdgeTree, IsAutomaton};
ghost use Rattle.machines.specs.MachineTree.{ControllerTree};
ghost use Rattle.machines.specs.Moves.{controller_moves};
ghost use Rattle.annotation_check.specs.Annotations.{edges_from, IsAnnotation};
ghost use Rattle.control_flow_model.specs.ProgramBits.{ProgramHasBits};
ghost use Rattle.control_flow_model.specs.ControllerOf.{IsControllerOf};
ghost use Rattle.program_check.specs.declared.verdict.Verdict.{Verdict};
ghost use Rattle.program_check.specs.declared.verdict.Limit.{Limit};
ghost use Rattle.program_check.specs.Verdicts.{HasFewBits, IsVerdict, IsPassed};

/// A program whose controller has an annotation, within any bound, for an automaton of the negation of a
/// formula meets the formula: every closed run of it, for each closing pair, under every finite
/// interpretation and every input loop.
pub fn annotated_programs_meet()
    ensures { (space : SpaceTree) (program : ProgramTree) (c : ControllerTree) (formula : FormulaTree)
        (states : List StateTree) (edges : List EdgeTree) (bound : ℕ) (number : ℕ → ℕ → Option ℕ) →
        IsSpace space → ProgramHasBits space program → IsControllerOf space program c → HasBits space formula →
        IsAutomaton (letter_form space (unary Negation formula)) states edges →
        IsAnnotation (edges_from edges) (controller_moves space c) bound number →
        (names : List Name) → EveryRunMeets names program formula }
{}

/// A program has at most one verdict under a specification and a bound.
pub fn one_verdict()
    ensures { (spec : SpecTree) (program : ProgramTree) (bound : ℕ) (v w : Verdict) →
        IsVerdict spec program bound v → IsVerdict spec program bound w → v ≡ w }
{}

/// Where a limit is passed, a program has no verdict within the limits of bits. So `accept` gives the
/// verdict that a program has within these, unless memory runs out.
pub fn limits_leave_no_verdict()
    ensures { (spec : SpecTree) (program : ProgramTree) (bound : ℕ) (limit : Limit) (v : Verdict) →
        HasFewBits spec → IsPassed spec program limit → IsVerdict spec program bound v → ⊥ }
{}

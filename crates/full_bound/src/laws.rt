//! The law of machines: each function does nothing, and its contract is the law.

ghost use Rattle.std.specs.Prelude.{ℕ, ◌*◌, ◌<◌, ◌⊎◌, List, length};
ghost use Rattle.ltl_formula.specs.LtlTree.{LtlTree};
ghost use Rattle.cobuchi_automata.specs.Automata.{StateTree, EdgeTree, IsAutomaton};
ghost use Rattle.letter_space.specs.SpaceTree.{SpaceTree, IsSpace};
ghost use Rattle.machines.specs.MachineTree.{ControllerTree, IsController};
ghost use Rattle.machines.specs.Moves.{MoveTree, FitsSpace, controller_moves};
ghost use Rattle.full_bound.specs.Failing.{StayWithin, Fails, HasAnnotationWithin};
ghost use Rattle.full_bound.specs.FullBound.{AllFail};
ghost use Rattle.refinement_loop.specs.Questions.{HasNoSolution};
ghost use Rattle.refinement_loop.specs.declared.outcome.Bound.{Bound};
ghost use Rattle.tsl_terms.specs.SpecTree.{SpecTree};
ghost use Rattle.tsl_terms.specs.WindowTree.{WindowTree};

/// Where an automaton is that of a formula, a machine whose moves stay within its states has a letter
/// loop on which the formula holds, or an annotation within its states times those of the automaton; and
/// a machine that has such a loop has no annotation, within whatever bound.
pub fn machines_fail_or_have_annotations()
    ensures either { (f : LtlTree) (states : List StateTree) (edges : List EdgeTree) → IsAutomaton f states edges →
        (machine_states : ℕ) → 0 < machine_states → (moves : ℕ → List MoveTree) → StayWithin machine_states moves →
        Fails f moves ⊎ HasAnnotationWithin edges moves (machine_states * length states) }
    ensures not_both { (f : LtlTree) (states : List StateTree) (edges : List EdgeTree) → IsAutomaton f states edges →
        (moves : ℕ → List MoveTree) (bound : ℕ) → Fails f moves → HasAnnotationWithin edges moves bound → ⊥ }
{}

/// Where an automaton is that of a formula, a controller that fits a space has a letter loop on which the
/// formula holds, or an annotation within its states times those of the automaton.
pub fn controllers_fail_or_have_annotations()
    ensures { (f : LtlTree) (states : List StateTree) (edges : List EdgeTree) → IsAutomaton f states edges →
        (space : SpaceTree) → IsSpace space → (controller : ControllerTree) → IsController controller → FitsSpace space controller →
        Fails f (controller_moves space controller)
        ⊎ HasAnnotationWithin edges (controller_moves space controller) (controller.states * length states) }
{}

/// Where no controller answers a question with the full bound, each controller with so many states over the
/// bits of the specification has a loop of letters on which the formula under the windows does not hold.
pub fn no_answer_means_that_all_fail()
    ensures { (spec : SpecTree) (windows : List WindowTree) (states : ℕ) → HasNoSolution spec windows states Bound.Full →
        AllFail spec windows states }
{}

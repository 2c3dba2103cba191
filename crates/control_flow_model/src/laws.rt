//! Laws of controllers and runs: each function does nothing, and its contract is the law.

ghost use Rattle.std.specs.Prelude.{◌≡◌, ℕ, ◌*◌, ◌≤◌, List, ◌++◌, length, map, Some, slice_get};
ghost use Rattle.loop_shape.specs.LoopShape.{LoopShape};
ghost use Rattle.tsl_terms.specs.Value.{Meanings};
ghost use Rattle.tsl_terms.specs.TermTree.{ProbeTree};
ghost use Rattle.tsl_terms.specs.WindowTree.{WindowTree};
ghost use Rattle.program_tree.specs.NodeTree.{branch};
ghost use Rattle.program_tree.specs.ProgramTree.{ProgramTree};
ghost use Rattle.tsl_meaning.specs.Interpretation.{InputRows};
ghost use Rattle.tsl_meaning.specs.Run.{Closed};
ghost use Rattle.ltl_formula.specs.LetterLoop.{LetterLoop};
ghost use Rattle.letter_space.specs.SpaceTree.{SpaceTree, IsSpace};
ghost use Rattle.base_library.specs.Once.{StandOnce};
ghost use Rattle.letter_space.specs.Letters.{valuation_count};
ghost use Rattle.machines.specs.MachineTree.{EntryTree, ControllerTree, IsController, controller_entry};
ghost use Rattle.machines.specs.Moves.{FitsSpace};
ghost use Rattle.control_flow_model.specs.ProgramBits.{ProgramHasBits};
ghost use Rattle.control_flow_model.specs.ControllerOf.{IsEntryOf, IsControllerOf};
ghost use Rattle.control_flow_model.specs.Flow.{AreKept, IsFlowOf};
ghost use Rattle.control_flow_model.specs.RunLetters.{IsLetterLoopOf};

/// Each closed run of a program over the bits of a space, for each closing pair, whatever symbols mean
/// and whatever is read, has a letter loop: it is a loop of the program's controller, and its letters say
/// what holds in the run.
pub fn closed_runs_have_letter_loops()
    ensures { (space : SpaceTree) (program : ProgramTree) (c : ControllerTree) →
        IsSpace space → ProgramHasBits space program → IsControllerOf space program c →
        (meanings : Meanings ℕ) (rows : InputRows ℕ) (shape : LoopShape) → Closed meanings program rows shape →
        (loop : LetterLoop) × IsLetterLoopOf space c meanings program rows shape loop }
{}

/// A program over the bits of a space has one controller at most.
pub fn one_controller()
    ensures { (space : SpaceTree) (program : ProgramTree) (c d : ControllerTree) → IsSpace space →
        IsControllerOf space program c → IsControllerOf space program d → c ≡ d }
{}

/// The program of a controller does, in each of its states and under each valuation, what the controller's
/// entry chooses, and goes to the state that stands for the entry's next one. State 0 stands for state 0.
pub fn flows_walk_as_controllers()
    ensures walks { (c : ControllerTree) (space : SpaceTree) (inputs cells outputs : List ℕ) (windows : List WindowTree)
        (program : ProgramTree) → IsSpace space → FitsSpace space c →
        (flow : IsFlowOf c space inputs cells outputs windows program) →
        (i s v : ℕ) (e : EntryTree) → slice_get flow.kept i ≡ Some s → controller_entry c s v ≡ Some e →
        (go : ℕ) × (slice_get flow.kept go ≡ Some e.next)
        × IsEntryOf space program i v (record { choices = e.choices; next = go }) }
    ensures start { (c : ControllerTree) (kept : List ℕ) → AreKept c kept → slice_get kept 0 ≡ Some 0 }
{}

/// The program of a controller tests predicate terms and assigns choices alone.
pub fn flows_have_bits()
    ensures { (c : ControllerTree) (space : SpaceTree) (inputs cells outputs : List ℕ) (windows : List WindowTree)
        (program : ProgramTree) → map (λ d. d.signal) space.controlled ≡ cells ++ outputs →
        IsFlowOf c space inputs cells outputs windows program → ProgramHasBits space program }
{}

/// The program of a controller has a state for each reachable one, and so not more than the controller, and
/// for each state fewer nodes than twice the valuations.
pub fn flows_are_small()
    ensures states { (c : ControllerTree) (space : SpaceTree) (inputs cells outputs : List ℕ) (windows : List WindowTree)
        (program : ProgramTree) → IsController c → (flow : IsFlowOf c space inputs cells outputs windows program) →
        (length program.states ≡ length flow.kept) × (1 ≤ length program.states) × (length program.states ≤ c.states) }
    ensures nodes { (c : ControllerTree) (space : SpaceTree) (inputs cells outputs : List ℕ) (windows : List WindowTree)
        (program : ProgramTree) → IsFlowOf c space inputs cells outputs windows program →
        length program.nodes ≤ length program.states * (2 * valuation_count space) }
{}

/// No node of the program of a controller stands twice, and no test leads to one node on both sides.
pub fn flows_repeat_nothing()
    ensures once { (c : ControllerTree) (space : SpaceTree) (inputs cells outputs : List ℕ) (windows : List WindowTree)
        (program : ProgramTree) → IsSpace space → IsFlowOf c space inputs cells outputs windows program →
        StandOnce program.nodes }
    ensures choose { (c : ControllerTree) (space : SpaceTree) (inputs cells outputs : List ℕ) (windows : List WindowTree)
        (program : ProgramTree) → IsFlowOf c space inputs cells outputs windows program →
        (i m n : ℕ) (t : ProbeTree) → slice_get program.nodes i ≡ Some (branch t m n) → m ≡ n → ⊥ }
{}

/// A controller has one program at most, over the bits of a space and for given signals and windows.
pub fn one_flow()
    ensures { (c : ControllerTree) (space : SpaceTree) (inputs cells outputs : List ℕ) (windows : List WindowTree)
        (p q : ProgramTree) → IsFlowOf c space inputs cells outputs windows p →
        IsFlowOf c space inputs cells outputs windows q → p ≡ q }
{}

//! Laws of the meaning.

ghost use Rattle.std.specs.Prelude.{◌≡◌, ℕ, ◌+◌, ◌<◌, ◌≤◌, ◌++◌, List, Option};
ghost use Rattle.std.specs.List.{AllByRecursion};
ghost use Rattle.loop_shape.specs.LoopShape.{LoopShape};
ghost use Rattle.tsl_terms.specs.Name.{Name};
ghost use Rattle.tsl_terms.specs.FormulaTree.{FormulaTree};
ghost use Rattle.tsl_terms.specs.Atoms.{atoms};
ghost use Rattle.tsl_terms.specs.SpecTree.{SpecTree, whole_formula};
ghost use Rattle.tsl_terms.specs.WellFormed.{SpecFits};
ghost use Rattle.tsl_terms.specs.Signals.{inputs_of, cells_of, outputs_of};
ghost use Rattle.tsl_terms.specs.WindowTree.{window_formula_of};
ghost use Rattle.program_tree.specs.ProgramTree.{ProgramTree};
ghost use Rattle.program_tree.specs.Fits.{IsProgram};
ghost use Rattle.program_tree.specs.Writable.{IsWritable};
ghost use Rattle.tsl_meaning.specs.OverNames.{IsProgramOver, IsFormulaOver};
ghost use Rattle.tsl_meaning.specs.Interpretation.{Interpretation, InputRows, IsInterpretation, IsInputLoop, IsEqualityOf, meanings_in, meanings_with};
ghost use Rattle.tsl_meaning.specs.Run.{HasStep, Closed};
ghost use Rattle.tsl_meaning.specs.Lasso.{IsDecided, meets, closed_run};
ghost use Rattle.tsl_meaning.specs.Promise.{Realizes, configurations};
ghost use Rattle.tsl_meaning.specs.RunTree.{RunTree};
ghost use Rattle.tsl_meaning.specs.RunLasso.{shape_of, run_lasso, IsJudged};
ghost use Rattle.tsl_meaning.specs.RunOf.{AreDifferent, IsFirstRepetition, IsRunOf};
ghost use Rattle.tsl_terms.specs.Value.{Meanings};

use interp_core::Judge;

/// A program that can be written over names is a program over them.
pub fn writable_programs_are_over_names()
    ensures { (names : List Name) (program : ProgramTree) → IsProgram program → IsWritable names program →
        IsProgramOver names program }
{}

/// Each step of a program over names is there, under every interpretation of the names and every
/// input loop.
pub fn programs_go_on()
    ensures { (names : List Name) (program : ProgramTree) (interpretation : Interpretation) (rows : InputRows ℕ) →
        IsProgramOver names program → IsInterpretation names program.cells interpretation →
        IsInputLoop interpretation.domain program.inputs rows →
        (t : ℕ) → HasStep (meanings_in names program interpretation) program rows t }
{}

/// A program over names closes under every interpretation of the names and every input loop, within
/// as many steps as it has configurations. So what every closed run meets says something of each.
pub fn programs_close()
    ensures { (names : List Name) (program : ProgramTree) (interpretation : Interpretation) (rows : InputRows ℕ) →
        IsProgramOver names program → IsInterpretation names program.cells interpretation →
        IsInputLoop interpretation.domain program.inputs rows →
        (shape : LoopShape) × Closed (meanings_in names program interpretation) program rows shape
        × (shape.start + shape.length ≤ configurations program interpretation rows) }
{}

/// At each step each atom of a formula that speaks of the program is decided: a probe has a truth,
/// and an updated signal is assigned a term. So no position of a run takes a missing one as false.
pub fn atoms_are_decided()
    ensures { (names : List Name) (program : ProgramTree) (interpretation : Interpretation) (rows : InputRows ℕ)
        (formula : FormulaTree) →
        IsProgramOver names program → IsInterpretation names program.cells interpretation →
        IsInputLoop interpretation.domain program.inputs rows → IsFormulaOver names program formula →
        (t : ℕ) → AllByRecursion (IsDecided (meanings_in names program interpretation) program rows t) (atoms formula) }
{}

/// The formulas of a promise are such formulas: that of each window of a program over names, and the
/// whole formula of a specification that fits its names, for a program that realizes it, and for one that has its
/// signals, also over more names.
pub fn promised_formulas_speak_of_the_program()
    ensures windows { (names : List Name) (program : ProgramTree) → IsProgramOver names program →
        AllByRecursion (λ w. IsFormulaOver names program (window_formula_of w)) program.windows }
    ensures whole { (spec : SpecTree) (program : ProgramTree) → SpecFits spec → Realizes spec program →
        IsFormulaOver spec.names program (whole_formula spec) }
    ensures signals { (spec : SpecTree) (program : ProgramTree) → SpecFits spec →
        program.inputs ≡ inputs_of spec → program.cells ≡ cells_of spec → program.outputs ≡ outputs_of spec →
        IsFormulaOver spec.names program (whole_formula spec) }
    ensures more_names { (spec : SpecTree) (more : List Name) (program : ProgramTree) → SpecFits spec →
        program.inputs ≡ inputs_of spec → program.cells ≡ cells_of spec → program.outputs ≡ outputs_of spec →
        IsFormulaOver (spec.names ++ more) program (whole_formula spec) }
{}

/// A run of a program that is written down means what the program's closed run means: the same
/// formulas hold at the same positions.
pub fn runs_mean_what_programs_do<J: Judge>()
    ensures { (meanings : Meanings J.Seen) (program : ProgramTree) (rows : InputRows J.Seen) (run : RunTree J.Seen) →
        IsRunOf meanings program rows run → (formula : FormulaTree) (i : ℕ) → i < run.start + run.length →
        meets (run_lasso meanings run) formula i ≡ meets (closed_run meanings program rows (shape_of run)) formula i }
{}

/// The first repetition is the least pair that a run closes with, and there is one at most.
pub fn first_repetitions_are_least<J: Judge>()
    ensures least { (meanings : Meanings J.Seen) (program : ProgramTree) (rows : InputRows J.Seen) (first shape : LoopShape) →
        IsFirstRepetition meanings program rows first → Closed meanings program rows shape →
        first.start + first.length ≤ shape.start + shape.length }
    ensures one { (meanings : Meanings J.Seen) (program : ProgramTree) (rows : InputRows J.Seen) (first second : LoopShape) →
        IsFirstRepetition meanings program rows first → IsFirstRepetition meanings program rows second → first ≡ second }
{}

/// Among more configurations than a program over names has, two are equal: a limit that is at least
/// as large lets each run close.
pub fn large_limits_are_enough()
    ensures { (names : List Name) (program : ProgramTree) (interpretation : Interpretation) (rows : InputRows ℕ) (limit : ℕ) →
        IsProgramOver names program → IsInterpretation names program.cells interpretation →
        IsInputLoop interpretation.domain program.inputs rows →
        configurations program interpretation rows ≤ limit →
        AreDifferent (meanings_in names program interpretation) program rows (limit + 1) → ⊥ }
{}

/// A formula that speaks of the program is judged in each of its runs.
pub fn formulas_are_judged()
    ensures { (names : List Name) (program : ProgramTree) (interpretation : Interpretation) (rows : InputRows ℕ)
        (formula : FormulaTree) (run : RunTree ℕ) →
        IsProgramOver names program → IsInterpretation names program.cells interpretation →
        IsInputLoop interpretation.domain program.inputs rows → IsFormulaOver names program formula →
        IsRunOf (meanings_in names program interpretation) program rows run →
        IsJudged (meanings_in names program interpretation) run formula }
{}

/// Symbols mean the same by the number of equality as by the names: there it is the predicate `eq` with two arguments.
pub fn meanings_are_by_number()
    ensures { (names : List Name) (equality : Option ℕ) (program : ProgramTree) (interpretation : Interpretation) →
        IsEqualityOf names equality →
        meanings_with equality program.cells interpretation ≡ meanings_in names program interpretation }
{}

//! The verdicts on a run that closes, and what is replied with them.

ghost use Rattle.std.specs.Prelude.{◌≡◌, ◌↔◌, ℕ, ◌++◌, ◌∷◌, map, is_some, IsTrue, IfOk, OnOk};
ghost use Rattle.std.specs.List.{list_all, AllByRecursion};
ghost use Rattle.tsl_terms.specs.SpecView.{spec_tree};
ghost use Rattle.tsl_terms.specs.SpecTree.{whole_formula};
ghost use Rattle.tsl_terms.specs.WindowTree.{window_tree, window_formula_of};
ghost use Rattle.program_tree.specs.ProgramView.{program_tree};
ghost use Rattle.tsl_meaning.specs.Lasso.{meets};
ghost use Rattle.tsl_meaning.specs.RunTree.{run_tree};
ghost use Rattle.tsl_meaning.specs.RunLasso.{run_lasso, IsJudged};
ghost use Rattle.trace_text.specs.TraceText.{RunIsHeld};
ghost use Rattle.program_check.specs.Verdicts.{HasSignals};
ghost use Rattle.checking_commands.specs.Run.{HasGivenSignals, formulas_to_judge, given_formulas, signals_reply, trace_reply};
ghost use Rattle.checking_commands.specs.Run.{verdict_status};
ghost use Rattle.checking_commands.specs.internal.RunView.{given_spec, meanings_read, verdict_in, verdicts_in};

use crate::meaning::Meaning;
use base_library::NoMemory;
use program_tree::Program;
use std::alloc::Global;
use tool_io::{Reply, Status};
use trace_text::trace_text;
use tsl_meaning::LoopRun;
use tsl_terms::{Names, Spec, Window, signals, whole, window_formula};

/// Whether the program has exactly the inputs, cells and outputs of the specification, if there is
/// one.
pub(crate) fn has_given_signals(
    alloc: Global,
    spec: Option<&Spec>,
    program: &Program,
) -> Result<bool, NoMemory>
    ensures { IfOk result (λ same.
        IsTrue same ↔ HasGivenSignals (given_spec spec.entry) (program_tree program.now)) }
{
    match spec {
        Some(spec) => has_signals_of(alloc, spec, program),
        None => Ok(true),
    }
}

/// Whether the program has exactly the inputs, cells and outputs of the specification.
fn has_signals_of(alloc: Global, spec: &Spec, program: &Program) -> Result<bool, NoMemory>
    ensures { IfOk result (λ same.
        IsTrue same ↔ HasSignals (spec_tree spec.now) (program_tree program.now)) }
{
    let lists = signals(alloc, spec)?;
    Ok(
        program.inputs.as_slice() == lists.inputs.as_slice()
            && program.cells.as_slice() == lists.cells.as_slice()
            && program.outputs.as_slice() == lists.outputs.as_slice(),
    )
}

/// That the program has other signals than the specification.
pub(crate) fn other_signals(alloc: Global) -> Result<Reply, NoMemory>
    ensures { IfOk result (λ reply. reply ≡ signals_reply) }
{
    let text = Vec::from_slice(alloc, b"refused signals\n")?;
    Ok(Reply::new(Status::No, text))
}

/// The reply of a run of the program, with the verdict on each window and on the specification, if
/// there is one.
pub(crate) fn trace_reply(
    alloc: Global,
    spec: Option<&Spec>,
    program: &Program,
    names: &Names,
    meaning: &Meaning,
    run: &LoopRun<u32>,
) -> Result<Reply, NoMemory>
    requires held { RunIsHeld names.now (run_tree (λ v. v) run.now) }
    requires judged { AllByRecursion (IsJudged (meanings_read meaning.now) (run_tree (λ v. v) run.now))
        (formulas_to_judge (program_tree program.now) (given_spec spec)) }
    ensures { IfOk result (λ reply.
        reply ≡ trace_reply names.now (run_tree (λ v. v) run.now) (is_some (given_spec spec.entry))
        (verdicts_in (meanings_read meaning.now) (run_tree (λ v. v) run.now)
        (formulas_to_judge (program_tree program.now) (given_spec spec.entry)))) }
{
    let verdicts = verdicts_on(alloc, spec, program, meaning, run)?;
    let text = trace_text(alloc, names, run, &verdicts, spec.is_some())?;
    Ok(Reply::new(status_of(&verdicts), text))
}

/// The verdict on each window of the program, and then on the specification, if there is one.
fn verdicts_on(
    alloc: Global,
    spec: Option<&Spec>,
    program: &Program,
    meaning: &Meaning,
    run: &LoopRun<u32>,
) -> Result<Vec<bool>, NoMemory>
    requires { AllByRecursion (IsJudged (meanings_read meaning.now) (run_tree (λ v. v) run.now))
        (formulas_to_judge (program_tree program.now) (given_spec spec)) }
    ensures { IfOk result (λ verdicts. verdicts.items
        ≡ verdicts_in (meanings_read meaning.now) (run_tree (λ v. v) run.now)
        (formulas_to_judge (program_tree program.now) (given_spec spec.entry))) }
{
    let mut verdicts = window_verdicts(alloc, program.windows.as_slice(), meaning, run)?;
    if let Some(spec) = spec {
        verdicts.push(spec_verdict(alloc, spec, meaning, run)?)?;
    }
    Ok(verdicts)
}

/// Whether the formula of each window holds in the run.
fn window_verdicts(
    alloc: Global,
    windows: &[Window],
    meaning: &Meaning,
    run: &LoopRun<u32>,
) -> Result<Vec<bool>, NoMemory>
    requires { AllByRecursion (IsJudged (meanings_read meaning.now) (run_tree (λ v. v) run.now))
        (map window_formula_of (map window_tree windows.now)) }
    ensures { IfOk result (λ verdicts. verdicts.items
        ≡ verdicts_in (meanings_read meaning.now)
        (run_tree (λ v. v) run.now) (map window_formula_of (map window_tree windows.now))) }
{
    let mut verdicts = Vec::new(alloc);
    for window in windows {
        verdicts.push(window_verdict(alloc, window, meaning, run)?)?;
    }
    Ok(verdicts)
}

/// Whether the formula of a window holds in the run.
fn window_verdict(
    alloc: Global,
    window: &Window,
    meaning: &Meaning,
    run: &LoopRun<u32>,
) -> Result<bool, NoMemory>
    requires { IsJudged (meanings_read meaning.now)
        (run_tree (λ v. v) run.now) (window_formula_of (window_tree window.now)) }
    ensures { IfOk result (λ holds. holds
        ≡ verdict_in (meanings_read meaning.now)
        (run_tree (λ v. v) run.now) (window_formula_of (window_tree window.now))) }
{
    let formula = window_formula(alloc, window)?;
    meaning.judge(alloc, run, &formula)
}

/// Whether the whole formula of a specification holds in the run.
fn spec_verdict(
    alloc: Global,
    spec: &Spec,
    meaning: &Meaning,
    run: &LoopRun<u32>,
) -> Result<bool, NoMemory>
    requires { IsJudged
        (meanings_read meaning.now) (run_tree (λ v. v) run.now) (whole_formula (spec_tree spec.now)) }
    ensures { IfOk result (λ holds. holds
        ≡ verdict_in
        (meanings_read meaning.now) (run_tree (λ v. v) run.now) (whole_formula (spec_tree spec.now))) }
{
    let formula = whole(alloc, spec)?;
    meaning.judge(alloc, run, &formula)
}

/// The status of verdicts: yes where all of them hold.
fn status_of(verdicts: &[bool]) -> Status
    ensures { result ≡ verdict_status verdicts.now }
{
    if all_hold(verdicts) {
        Status::Done
    } else {
        Status::No
    }
}

/// Whether all verdicts say that the formula holds.
fn all_hold(verdicts: &[bool]) -> bool
    ensures { result ≡ list_all (λ holds. holds) verdicts.now }
{
    verdicts.iter().all(|holds| *holds)
}

//! The text of a run that closes, and of the verdicts on it.
//!
//! `trace_text` gives, at Ok, exactly the bytes that the definition of the same name gives. The one condition is that
//! the names hold each number.
#![tactic(auto)]

ghost use Rattle.std.specs.Prelude.{◌≡◌, ℕ, ◌++◌, map, codes, decimal, IsTrue, IfOk, OnOk};
ghost use Rattle.std.specs.List.{list_all};
ghost use Rattle.term_text.specs.TermText.{name_text, is_held};
ghost use Rattle.tsl_meaning.specs.RunTree.{position_tree, run_tree};
ghost use Rattle.trace_text.specs.TraceText.{place_line, values_text, position_text, positions_text, loop_text, verdict_word};
ghost use Rattle.trace_text.specs.TraceText.{subject_text, verdict_text, verdicts_text, trace_text, position_is_held, RunIsHeld};

use base_library::NoMemory;
use flow_program::put_updates;
use std::alloc::Global;
use term_text::put_name;
use tsl_meaning::{LoopRun, Position};
use tsl_terms::Names;
use tsl_text::{put_bytes, put_number};

/// The text of a run: a line for each position, the line of its loop, and a line for each verdict. The verdicts are
/// those on the windows in order, and where there is a formula the last one is that on the formula.
///
/// The names hold each signal of the run and each number of the terms that it assigns.
pub fn trace_text(
    alloc: Global,
    names: &Names,
    run: &LoopRun<u32>,
    verdicts: &[bool],
    has_formula: bool,
) -> Result<Vec<u8>, NoMemory>
    requires { RunIsHeld names.now (run_tree (λ v. v) run.now) }
    ensures { IfOk result (λ text.
        text.items ≡ trace_text names.now (run_tree (λ v. v) run.now) has_formula verdicts.now) }
{
    let mut controlled = Vec::from_slice(alloc, run.cells.as_slice())?;
    controlled.extend_from_slice(run.outputs.as_slice())?;
    let mut out = Vec::new(alloc);
    put_positions(&mut out, names, run, &controlled)?;
    put_loop(&mut out, run.start, run.length)?;
    put_verdicts(&mut out, verdicts, has_formula)?;
    Ok(out)
}

/// Appends a line for each position, numbered from 0.
fn put_positions(
    out: &mut Vec<u8>,
    names: &Names,
    run: &LoopRun<u32>,
    controlled: &[u32],
) -> Result<(), NoMemory>
    requires controlled { controlled.now ≡ run.now.cells ++ run.now.outputs }
    requires held { RunIsHeld names.now (run_tree (λ v. v) run.now) }
    ensures { OnOk result
        (out.new.items ≡ out.old.items ++ positions_text names.now
        (run_tree (λ v. v) run.now) 0 (map (position_tree (λ v. v)) run.now.positions)) }
{
    for (number, position) in run.positions.as_slice().iter().enumerate() {
        put_position(out, names, run, controlled, number, position)?;
    }
    Ok(())
}

/// Appends the line of a position.
fn put_position(
    out: &mut Vec<u8>,
    names: &Names,
    run: &LoopRun<u32>,
    controlled: &[u32],
    number: usize,
    position: &Position<u32>,
) -> Result<(), NoMemory>
    requires controlled { controlled.now ≡ run.now.cells ++ run.now.outputs }
    requires held { RunIsHeld names.now (run_tree (λ v. v) run.now) }
    requires terms { IsTrue (position_is_held names.now (position_tree (λ v. v) position.now)) }
    ensures { OnOk result
        (out.new.items ≡ out.old.items ++ position_text names.now
        (run_tree (λ v. v) run.now) number (position_tree (λ v. v) position.now)) }
{
    put_place(out, number, position.place, position.state)?;
    put_values(out, names, run.inputs.as_slice(), position.row.as_slice())?;
    put_values(out, names, run.cells.as_slice(), position.cells.as_slice())?;
    put_bytes(out, b" do")?;
    put_updates(out, names, controlled, position.updates.as_slice())?;
    put_bytes(out, b"\n")
}

/// Appends the number of a position, its place among the input rows and its state.
fn put_place(out: &mut Vec<u8>, number: usize, place: u32, state: u32) -> Result<(), NoMemory>
    ensures { OnOk result (out.new.items ≡ out.old.items ++ place_line number place state) }
{
    put_bytes(out, b"at ")?;
    put_number(out, number as u64)?;
    put_bytes(out, b" place ")?;
    put_number(out, u64::from(place))?;
    put_bytes(out, b" state ")?;
    put_number(out, u64::from(state))
}

/// Appends each signal and its value, a space before both.
fn put_values(
    out: &mut Vec<u8>,
    names: &Names,
    signals: &[u32],
    values: &[u32],
) -> Result<(), NoMemory>
    requires { IsTrue (list_all (is_held names.now) signals.now) }
    ensures { OnOk result
        (out.new.items ≡ out.old.items ++ values_text names.now signals.now values.now) }
{
    for (signal, value) in signals.iter().zip(values) {
        put_value(out, names, *signal, *value)?;
    }
    Ok(())
}

/// Appends a signal and its value, a space before both.
fn put_value(out: &mut Vec<u8>, names: &Names, signal: u32, value: u32) -> Result<(), NoMemory>
    requires { IsTrue (is_held names.now signal) }
    ensures { OnOk result
        (out.new.items ≡ out.old.items
        ++ (codes " " ++ name_text names.now signal ++ codes " " ++ decimal value)) }
{
    put_bytes(out, b" ")?;
    put_name(out, names, signal)?;
    put_bytes(out, b" ")?;
    put_number(out, u64::from(value))
}

/// Appends where the loop begins and how many positions it has.
fn put_loop(out: &mut Vec<u8>, start: u32, length: u32) -> Result<(), NoMemory>
    ensures { OnOk result (out.new.items ≡ out.old.items ++ loop_text start length) }
{
    put_bytes(out, b"loop ")?;
    put_number(out, u64::from(start))?;
    put_bytes(out, b" ")?;
    put_number(out, u64::from(length))?;
    put_bytes(out, b"\n")
}

/// Appends a line for each verdict.
fn put_verdicts(out: &mut Vec<u8>, verdicts: &[bool], has_formula: bool) -> Result<(), NoMemory>
    ensures { OnOk result
        (out.new.items ≡ out.old.items ++ verdicts_text has_formula 0 verdicts.now) }
{
    for (number, holds) in verdicts.iter().enumerate() {
        let is_formula = has_formula && number + 1 == verdicts.len();
        put_verdict(out, is_formula, number, *holds)?;
    }
    Ok(())
}

/// Appends the line of the verdict on the formula, or on the window of this number.
fn put_verdict(
    out: &mut Vec<u8>,
    is_formula: bool,
    number: usize,
    holds: bool,
) -> Result<(), NoMemory>
    ensures { OnOk result (out.new.items ≡ out.old.items ++ verdict_text is_formula number holds) }
{
    put_subject(out, is_formula, number)?;
    put_bytes(out, verdict_word(holds))
}

/// Appends what a verdict is on: the formula, or the window of this number.
fn put_subject(out: &mut Vec<u8>, is_formula: bool, number: usize) -> Result<(), NoMemory>
    ensures { OnOk result (out.new.items ≡ out.old.items ++ subject_text is_formula number) }
{
    if is_formula {
        return put_bytes(out, b"formula");
    }
    put_bytes(out, b"window ")?;
    put_number(out, number as u64)
}

/// The word of a verdict, and the end of its line.
fn verdict_word(holds: bool) -> &'static [u8]
    ensures { result.now ≡ verdict_word holds }
{
    if holds { b" holds\n" } else { b" fails\n" }
}

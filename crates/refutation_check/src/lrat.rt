//! The reader of logs in the LRAT form.

ghost use Rattle.std.specs.Prelude.{◌≡◌, ◌+◌, ◌^◌, ◌<◌, ◌≤◌, ℕ, true, not, List, [], ◌++◌, Err, Some, IfOk, OnOk, IfSome, IfNone, length, map, option_to_list, All};
ghost use Rattle.std.specs.List.{list_all};
ghost use Rattle.clause_core.specs.Literals.{Lit, signed_number_of};
ghost use Rattle.tsl_text.specs.Lines.{words};
ghost use Rattle.refutation_check.specs.Checking.{HaveFewHints};
ghost use Rattle.refutation_check.specs.LogText.{line_answer, line_of_number, are_deleted, is_wrong, step_in, is_literal, log_answer, is_log, form_at};
ghost use Rattle.refutation_check.specs.internal.Reading.{with_literals, with_hints, with_both, HasHintsWithin};

use crate::lines::is_comment;
use crate::numbers::{ends_list, hint_in, literal_in};
use crate::steps::{Log, Step};
use base_library::{NoMemory, Sequence};
use clause_core::{Literal, clause_of};
use std::alloc::{AllocFailed, Global};
use thiserror::Error;
use tsl_text::{first_line, first_word, lines_of, number_in};

/// Why a text is no log.
#[derive(Debug, Drop, Error)]
pub enum LogTextError {
    /// This line, counted from 1, is the first that is no step, no deletion and no comment.
    #[error("line {0} is malformed")]
    Form(u32),
    /// Memory ran out.
    #[error("out of memory")]
    NoMemory,
}

impl From<NoMemory> for LogTextError {
    ghost use Rattle.std.specs.Prelude.{◌≡◌};
    ghost use Rattle.refutation_check.specs.declared.lrat.LogTextError.TheVariants.{NoMemory as Exhausted};

    ghost from_gives = { λ _ e. e ≡ Exhausted };

    fn from(_error: NoMemory) -> LogTextError {
        LogTextError::NoMemory
    }
}

impl<T: Drop> From<AllocFailed<T>> for LogTextError {
    ghost use Rattle.std.specs.Prelude.{◌≡◌};
    ghost use Rattle.refutation_check.specs.declared.lrat.LogTextError.TheVariants.{NoMemory as Exhausted};

    ghost from_gives = { λ _ e. e ≡ Exhausted };

    fn from(_error: AllocFailed<T>) -> LogTextError {
        LogTextError::NoMemory
    }
}

/// What a line of a log is.
#[derive(Drop)]
pub enum Line {
    /// It says this step.
    Says(Step),
    /// It has no word, is a comment, or is a deletion.
    NoEffect,
    /// It is none of these.
    Wrong,
}

/// The log that a text in the LRAT form tells. A line `NUMBER LITERALS 0 HINTS 0` is a step, with hints from 1
/// on; a line `NUMBER d NUMBERS 0` is a deletion, which has no effect; lines without a word and those that begin
/// with `c` are passed over. A number has 1 to 18 digits.
pub fn read_lrat(alloc: Global, text: &[u8]) -> Result<Log, LogTextError>
    requires { length text.now + 1 < 2 ^ 32 }
    ensures ok { IfOk result (λ log. log_answer text.now ≡ is_log log.steps) }
    ensures few_hints { IfOk result (λ log. HaveFewHints log.steps) }
    ensures form { (line : ℕ) → result ≡ Err (LogTextError.Form line) → log_answer text.now ≡ form_at line }
{
    let mut steps = Vec::new(alloc);
    let mut literals = Vec::new(alloc);
    let mut left = lines_of(text);
    while let Some((line, after)) = first_line(left) {
        if !add_line(&mut steps, read_line(alloc, &mut literals, line.bytes)?)? {
            return Err(LogTextError::Form(line.number));
        }
        left = after;
    }
    Ok(Log {
        steps: Sequence::from_vec(steps),
    })
}

/// Adds the step that the line says, if it says one, and answers whether it is right.
fn add_line(steps: &mut Vec<Step>, line: Line) -> Result<bool, NoMemory>
    ensures right { IfOk result (λ right. right ≡ not (is_wrong line)) }
    ensures steps { OnOk result (steps.new.items ≡ steps.old.items ++ option_to_list (step_in line)) }
{
    match line {
        Line::Says(step) => {
            steps.push(step)?;
            Ok(true)
        }
        Line::NoEffect => Ok(true),
        Line::Wrong => Ok(false),
    }
}

/// What a line is. The literals of a step are gathered in the vector that is lent.
fn read_line(alloc: Global, literals: &mut Vec<Literal>, line: &[u8]) -> Result<Line, NoMemory>
    ensures value { IfOk result (λ answer. answer ≡ line_answer line.now) }
    ensures few_hints { IfOk result (HasHintsWithin (length line.now)) }
{
    if is_comment(line) {
        return Ok(Line::NoEffect);
    }
    let Some((first, rest)) = first_word(line) else {
        return Ok(Line::NoEffect);
    };
    let Some(name) = number_in(first) else {
        return Ok(Line::Wrong);
    };
    read_after_number(alloc, literals, name, rest)
}

/// What a line is after its number.
fn read_after_number(
    alloc: Global,
    literals: &mut Vec<Literal>,
    name: u64,
    rest: &[u8],
) -> Result<Line, NoMemory>
    ensures value { IfOk result (λ answer. answer ≡ line_of_number (words rest.now) (Some name)) }
    ensures few_hints { IfOk result (HasHintsWithin (length rest.now)) }
{
    let Some((word, later)) = first_word(rest) else {
        return Ok(Line::Wrong);
    };
    if word != b"d".as_slice() {
        read_step(alloc, literals, name, rest)
    } else if are_deleted(later) {
        Ok(Line::NoEffect)
    } else {
        Ok(Line::Wrong)
    }
}

/// Whether the words end a deletion: they are numbers, the last of them 0.
fn are_deleted(line: &[u8]) -> bool
    ensures { result ≡ are_deleted (words line.now) }
{
    let mut ended = false;
    let mut rest = line;
    while let Some((word, later)) = first_word(rest) {
        match number_in(word) {
            None => return false,
            Some(value) => ended = value == 0,
        }
        rest = later;
    }
    ended
}

/// The step of this number that the words tell, if they are of its form.
fn read_step(
    alloc: Global,
    literals: &mut Vec<Literal>,
    name: u64,
    line: &[u8],
) -> Result<Line, NoMemory>
    ensures value { IfOk result (λ answer. answer ≡ with_literals name [] (words line.now)) }
    ensures few_hints { IfOk result (HasHintsWithin (length line.now)) }
{
    let Some(rest) = read_literals(literals, line)? else {
        return Ok(Line::Wrong);
    };
    let Some((hints, rest)) = read_hints(alloc, rest)? else {
        return Ok(Line::Wrong);
    };
    if first_word(rest).is_some() {
        return Ok(Line::Wrong);
    }
    Ok(Line::Says(Step {
        number: name,
        clause: clause_of(alloc, literals.as_slice())?,
        hints: Sequence::from_vec(hints),
    }))
}

/// Puts the literals before the first 0 in the vector in place of what it held, and answers what comes after that 0.
/// `None` where one of the words before it means no literal, or there is no 0.
fn read_literals<'a>(
    literals: &mut Vec<Literal>,
    line: &'a [u8],
) -> Result<Option<&'a [u8]>, NoMemory>
    ensures some { IfOk result (λ found. IfSome found (λ rest. (name : ℕ) → with_literals name [] (words line.now) ≡ with_hints name literals.new.items [] (words rest.now))) }
    ensures literals { IfOk result (λ found. IfSome found (λ rest. list_all is_literal (map signed_number_of literals.new.items) ≡ true)) }
    ensures none { IfOk result (λ found. IfNone found ((name : ℕ) → with_literals name [] (words line.now) ≡ Line.Wrong)) }
    ensures within { IfOk result (λ found. IfSome found (λ rest. length rest.now ≤ length line.now)) }
{
    literals.clear();
    let mut rest = line;
    while let Some((word, later)) = first_word(rest) {
        if ends_list(word) {
            return Ok(Some(later));
        }
        let Some(literal) = literal_in(word) else {
            return Ok(None);
        };
        literals.push(literal)?;
        rest = later;
    }
    Ok(None)
}

/// The hints before the first 0, and what comes after it. `None` where one of the words before it means
/// no hint, or there is no 0.
fn read_hints<'a>(alloc: Global, line: &'a [u8]) -> Result<Option<(Vec<u64>, &'a [u8])>, NoMemory>
    ensures some { IfOk result (λ found. IfSome found (λ read. (name : ℕ) (literals : List Lit) → with_hints name literals [] (words line.now) ≡ with_both name literals read.0.items (words read.1.now))) }
    ensures positive { IfOk result (λ found. IfSome found (λ read. All (λ hint. 0 < hint) read.0.items)) }
    ensures none { IfOk result (λ found. IfNone found ((name : ℕ) (literals : List Lit) → with_hints name literals [] (words line.now) ≡ Line.Wrong)) }
    ensures few { IfOk result (λ found. IfSome found (λ read. length read.0.items ≤ length line.now)) }
{
    let mut hints = Vec::new(alloc);
    let mut rest = line;
    while let Some((word, later)) = first_word(rest) {
        if ends_list(word) {
            return Ok(Some((hints, later)));
        }
        let Some(hint) = hint_in(word) else {
            return Ok(None);
        };
        hints.push(hint)?;
        rest = later;
    }
    Ok(None)
}

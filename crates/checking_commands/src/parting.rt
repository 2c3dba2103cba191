//! The parts of what `run` reads.

ghost use Rattle.std.specs.Prelude.{◌≤◌, ◌^◌, length, IfOk, IfErr, IfSome, IfNone};
ghost use Rattle.command_faults.specs.HeadLines.{HasNoLine};
ghost use Rattle.checking_commands.specs.RunParts.{tables_line, IsCutByStyle, AreParts, LacksPart};
ghost use Rattle.checking_commands.specs.internal.RunView.{run_parts, AreShort, IsFirstLine, HasNoMeaning};

use command_faults::{PROGRAM_LINE, cut_before};
use tsl_report::Head;
use tsl_text::line_at;

/// The first line of tables.
const TABLES_LINE: &[u8] = b"tsltables 1";

/// The first line of machine words.
const WORDS_LINE: &[u8] = b"tslwords 1";

/// The first line of inputs.
const INPUTS_LINE: &[u8] = b"tslinputs 1";

/// How a text gives an interpretation.
#[derive(Clone, Copy, Debug, PartialEq, Eq)]
pub enum Style {
    /// By tables of functions and predicates.
    Tables,
    /// By operations on machine words.
    Words,
}

/// The texts of the parts. Without a specification its part is empty.
#[derive(Clone, Copy)]
pub(crate) struct Parts<'a> {
    /// The specification.
    pub(crate) spec: &'a [u8],
    /// The program.
    pub(crate) program: &'a [u8],
    /// How the interpretation is given.
    pub(crate) style: Style,
    /// What gives the interpretation.
    pub(crate) meaning: &'a [u8],
    /// The rows of inputs.
    pub(crate) inputs: &'a [u8],
}

/// A line that begins tables or machine words.
#[derive(Clone, Copy)]
struct FirstLine {
    /// Which of the two it begins.
    style: Style,
    /// Where it begins.
    at: u32,
}

/// All before a line that begins tables or machine words, and all from that line on.
#[derive(Clone, Copy)]
struct Cut<'a> {
    before: &'a [u8],
    style: Style,
    after: &'a [u8],
}

/// The parts of a text, or the first one whose line is missing.
pub(crate) fn parts_of(bytes: &[u8]) -> Result<Parts<'_>, Head>
    requires { length bytes.now ≤ 2 ^ 24 }
    ensures parts { IfOk result (λ parts. AreParts bytes.now (run_parts parts)) }
    ensures short { IfOk result (λ parts. AreShort (run_parts parts)) }
    ensures lacks { IfErr result (LacksPart bytes.now) }
{
    let Some((spec, from_program)) = cut_before(bytes, PROGRAM_LINE) else {
        return Err(Head::Program);
    };
    let Some(cut) = cut_by_style(from_program) else {
        return Err(Head::Tables);
    };
    let Some((meaning, inputs)) = cut_before(cut.after, INPUTS_LINE) else {
        return Err(Head::Inputs);
    };
    Ok(Parts {
        spec,
        program: cut.before,
        style: cut.style,
        meaning,
        inputs,
    })
}

/// All before the first line of the text that begins tables or machine words, and all from that line
/// on.
fn cut_by_style(text: &[u8]) -> Option<Cut<'_>>
    requires { length text.now ≤ 2 ^ 24 }
    ensures found { IfSome result (λ cut. IsCutByStyle text.now cut.style cut.before.now cut.after.now) }
    ensures short { IfSome result (λ cut. (length cut.before.now ≤ 2 ^ 24) × (length cut.after.now ≤ 2 ^ 24)) }
    ensures none { IfNone result (HasNoMeaning text.now) }
{
    let line = first_line(text)?;
    let at = line.at as usize;
    Some(Cut {
        before: &text[..at],
        style: line.style,
        after: &text[at..],
    })
}

/// The first line of the text that begins tables or machine words.
fn first_line(text: &[u8]) -> Option<FirstLine>
    requires { length text.now ≤ 2 ^ 24 }
    ensures found { IfSome result (λ line. IsFirstLine text.now line.style line.at) }
    ensures inside { IfSome result (λ line. line.at ≤ length text.now) }
    ensures none { IfNone result (HasNoMeaning text.now) }
{
    let Some(tables) = line_at(text, TABLES_LINE) else {
        return first_words_line(text);
    };
    let Some(words) = line_at(text, WORDS_LINE) else {
        return Some(FirstLine {
            style: Style::Tables,
            at: tables,
        });
    };
    if words < tables {
        Some(FirstLine {
            style: Style::Words,
            at: words,
        })
    } else {
        Some(FirstLine {
            style: Style::Tables,
            at: tables,
        })
    }
}

/// The first line that begins machine words, in a text in which none begins tables.
fn first_words_line(text: &[u8]) -> Option<FirstLine>
    requires short { length text.now ≤ 2 ^ 24 }
    requires no_tables { HasNoLine text.now tables_line }
    ensures found { IfSome result (λ line. IsFirstLine text.now line.style line.at) }
    ensures inside { IfSome result (λ line. line.at ≤ length text.now) }
    ensures none { IfNone result (HasNoMeaning text.now) }
{
    match line_at(text, WORDS_LINE) {
        Some(at) => Some(FirstLine {
            style: Style::Words,
            at,
        }),
        None => None,
    }
}

//! Texts that are read line by line.

ghost use Rattle.std.specs.Prelude.{◌≡◌, ℕ, ◌+◌, ◌<◌, ◌^◌, true, false, Bool, List, length};
ghost use Rattle.std.specs.Prelude.{Option, Some, None, Result, Ok, Err};
ghost use Rattle.tsl_text.specs.Lines.{lines_from};
ghost use Rattle.line_formats.specs.Machine.{read_from, text_taken};
ghost use Rattle.line_formats.specs.internal.LastLines.{may_end};

use std::alloc::AllocError as NoMemory;
use thiserror::Error;
use tsl_text::{first_line, lines_of};

/// Why a text is not read.
#[derive(Debug, Drop, Error)]
pub enum TextError {
    /// This line, counted from 1, is the first wrong one.
    #[error("line {0} is malformed")]
    Form(u32),
    /// Memory ran out.
    #[error("out of memory")]
    NoMemory,
}

impl From<NoMemory> for TextError {
    ghost use Rattle.std.specs.Prelude.{◌≡◌};
    ghost use Rattle.line_formats.specs.declared.lines.TextError.TheVariants.{NoMemory as Exhausted};

    ghost from_gives = { λ _ e. e ≡ Exhausted };

    fn from(_error: NoMemory) -> TextError {
        TextError::NoMemory
    }
}

/// How the last line of a text may end.
#[derive(Clone, Copy)]
pub enum LastLine {
    /// By its line feed, as each other line.
    Ended,
    /// By its line feed or by the end of the text.
    MayLackFeed,
}

/// Whether a line may end so.
fn may_end(last: LastLine, ended: bool) -> bool
    ensures { result ≡ may_end last ended }
{
    match last {
        LastLine::Ended => ended,
        LastLine::MayLackFeed => true,
    }
}

/// What the lines of a text say, one after another.
pub trait LineReader {
    /// What is seen of the lines so far.
    ghost State: { Type 0 };

    /// What it is after one more line, if that may stand there.
    ghost step: { Self.State → List ℕ → Option Self.State };

    /// Whether the lines so far are a whole text.
    ghost whole: { Self.State → Bool };

    /// What the lines so far say.
    ghost state: { Self → Self.State };

    /// Reads one more line, and tells whether it may stand there.
    fn read_line(&mut self, line: &[u8]) -> Result<bool, NoMemory>
        ensures read { result ≡ Ok true →
            step (state self.old) line.now ≡ Some (state self.new) }
        ensures wrong { result ≡ Ok false → step (state self.old) line.now ≡ None };

    /// Whether the lines so far are a whole text.
    fn is_whole(&self) -> bool
        ensures { result ≡ whole (state self.now) };
}

/// Reads the lines of a text one after another. An `Err` tells the first wrong line; where a line
/// is missing, it is the one after the last.
#[tactic(auto, using(crate::proofs::LastLines::all_taken))]
pub fn read_text<R: LineReader>(
    reader: &mut R,
    text: &[u8],
    last: LastLine,
) -> Result<(), TextError>
    requires { length text.now + 1 < 2 ^ 32 }
    ensures ok { result ≡ Ok tt →
        read_from R.step R.whole (R.state reader.old) 1 (lines_from 1 (text_taken last text.now))
        ≡ Ok (R.state reader.new) }
    ensures form { (line : ℕ) → result ≡ Err (TextError.Form line) →
        read_from R.step R.whole (R.state reader.old) 1 (lines_from 1 (text_taken last text.now))
        ≡ Err line }
{
    let mut left = lines_of(text);
    while let Some((line, after)) = first_line(left) {
        if !may_end(last, line.ended) || !reader.read_line(line.bytes)? {
            return Err(TextError::Form(line.number));
        }
        left = after;
    }
    if reader.is_whole() {
        Ok(())
    } else {
        Err(TextError::Form(left.number))
    }
}

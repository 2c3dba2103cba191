//! The lines that part an input.

ghost use Rattle.std.specs.Prelude.{◌≤◌, ◌^◌, length, IfSome, IfNone};
ghost use Rattle.command_faults.specs.HeadLines.{HasNoLine, IsCutBefore};

use tsl_text::line_at;

/// The first line of a program.
pub const PROGRAM_LINE: &[u8] = b"tslprogram 1";

/// All before the first line of the text that equals this one, and all from that line on.
pub fn cut_before<'a>(text: &'a [u8], line: &[u8]) -> Option<(&'a [u8], &'a [u8])>
    requires { length text.now ≤ 2 ^ 24 }
    ensures found { IfSome result (λ cut. IsCutBefore text.now line.now cut.0.now cut.1.now) }
    ensures short { IfSome result (λ cut. (length cut.0.now ≤ 2 ^ 24) × (length cut.1.now ≤ 2 ^ 24)) }
    ensures none { IfNone result (HasNoLine text.now line.now) }
{
    let at = line_at(text, line)? as usize;
    Some((&text[..at], &text[at..]))
}

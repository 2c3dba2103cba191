//! The numbers of a line.

ghost use Rattle.std.specs.Prelude.{◌≡◌, ◌<◌, ◌^◌, Some, None, IfSome, IfNone};
ghost use Rattle.circuit_text.specs.internal.Lines.{one, two, three, header, line_value};

use line_formats::{first_number, past};

/// The number that a line is.
pub(crate) fn one_number(line: &[u8]) -> Option<u64>
    ensures some { IfSome result (λ n. line_value one line.now ≡ Some (n, tt)) }
    ensures none { IfNone result (line_value one line.now ≡ None) }
{
    let (number, rest) = first_number(line)?;
    match rest {
        [] => Some(number),
        [_, ..] => None,
    }
}

/// The two numbers that a line is.
pub(crate) fn two_numbers(line: &[u8]) -> Option<(u64, u64)>
    ensures some { IfSome result (λ n. line_value two line.now ≡ Some (n.0, (n.1, tt))) }
    ensures none { IfNone result (line_value two line.now ≡ None) }
{
    let (first, rest) = first_number(line)?;
    let rest = past(rest, b" ")?;
    let (second, rest) = first_number(rest)?;
    match rest {
        [] => Some((first, second)),
        [_, ..] => None,
    }
}

/// The three numbers that a line is.
pub(crate) fn three_numbers(line: &[u8]) -> Option<(u64, u64, u64)>
    ensures some { IfSome result (λ n. line_value three line.now ≡ Some (n.0, (n.1, (n.2, tt)))) }
    ensures none { IfNone result (line_value three line.now ≡ None) }
    ensures second { IfSome result (λ n. n.1 < 10 ^ 18) }
    ensures third { IfSome result (λ n. n.2 < 10 ^ 18) }
    ensures first { IfSome result (λ n. n.0 < 10 ^ 18) }
{
    let (first, rest) = first_number(line)?;
    let rest = past(rest, b" ")?;
    let (second, rest) = first_number(rest)?;
    let rest = past(rest, b" ")?;
    let (third, rest) = first_number(rest)?;
    match rest {
        [] => Some((first, second, third)),
        [_, ..] => None,
    }
}

/// The numbers of a header.
#[derive(Clone, Copy)]
pub(crate) struct HeaderNumbers {
    pub(crate) variables: u64,
    pub(crate) inputs: u64,
    pub(crate) latches: u64,
    pub(crate) outputs: u64,
    pub(crate) gates: u64,
}

/// The header that a line is.
#[tactic(auto, using(line_formats::proofs::FormatLaws::end_some_first, line_formats::proofs::FormatLaws::end_none_first))]
pub(crate) fn header(line: &[u8]) -> Option<HeaderNumbers>
    ensures some { IfSome result (λ h. line_value header line.now
        ≡ Some (h.variables, (h.inputs, (h.latches, (h.outputs, (h.gates, tt)))))) }
    ensures none { IfNone result (line_value header line.now ≡ None) }
    ensures inputs { IfSome result (λ h. h.inputs < 10 ^ 18) }
    ensures latches { IfSome result (λ h. h.latches < 10 ^ 18) }
    ensures gates { IfSome result (λ h. h.gates < 10 ^ 18) }
{
    let rest = past(line, b"aag ")?;
    let (variables, rest) = first_number(rest)?;
    let rest = past(rest, b" ")?;
    let (inputs, rest) = first_number(rest)?;
    let rest = past(rest, b" ")?;
    let (latches, outputs, gates) = three_numbers(rest)?;
    Some(HeaderNumbers {
        variables,
        inputs,
        latches,
        outputs,
        gates,
    })
}

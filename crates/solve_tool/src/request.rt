//! The words after the program's name.

ghost use Rattle.std.specs.Prelude.{◌≡◌, ◌≤◌, map, string_bytes, IfSome};
ghost use Rattle.std.specs.Str.{bytes_eq};
ghost use Rattle.solve_tool.specs.Requests.{budget_in, with_budget, request_of};

use tsl_text::number_in;

/// The most clauses that the words can ask for, and as many as may be learnt where they ask for no number.
const MOST_BUDGET: u64 = 4_000_000_000;

/// The most bytes of a formula.
pub(crate) const MOST_BYTES: u32 = 268_435_456;

/// What the program is asked for.
#[derive(Clone, Copy, Debug, PartialEq, Eq)]
pub(crate) struct Request {
    /// How many clauses may be learnt, from 1 to 4,000,000,000.
    pub(crate) budget: u64,
    /// Whether a log is to be written where no assignment meets all clauses.
    pub(crate) log: bool,
}

/// What these words ask for, or None where they ask for nothing.
pub(crate) fn request_of(words: &[String]) -> Option<Request>
    ensures found { result ≡ request_of (map string_bytes words.now) }
    ensures some { IfSome result (λ request. 1 ≤ request.budget) }
    ensures few { IfSome result (λ request. request.budget ≤ 4000000000) }
{
    match words {
        [] => Some(Request {
            budget: MOST_BUDGET,
            log: false,
        }),
        [a] if is_word(a, b"--log") => Some(Request {
            budget: MOST_BUDGET,
            log: true,
        }),
        [a, b] if is_word(a, b"--budget") => with_budget(false, b),
        [a, b, c] if is_word(a, b"--budget") && is_word(c, b"--log") => with_budget(true, b),
        [a, b, c] if is_word(a, b"--log") && is_word(b, b"--budget") => with_budget(true, c),
        _ => None,
    }
}

/// The request with the budget that the word means.
fn with_budget(log: bool, word: &String) -> Option<Request>
    ensures found { result ≡ with_budget log (string_bytes word.now) }
    ensures some { IfSome result (λ request. 1 ≤ request.budget) }
    ensures few { IfSome result (λ request. request.budget ≤ 4000000000) }
{
    let budget = budget_in(word.as_bytes())?;
    Some(Request { budget, log })
}

/// The budget that the word means.
fn budget_in(word: &[u8]) -> Option<u64>
    ensures found { result ≡ budget_in word.now }
    ensures some { IfSome result (λ budget. 1 ≤ budget) }
    ensures few { IfSome result (λ budget. budget ≤ 4000000000) }
{
    match number_in(word) {
        Some(budget) if 1 <= budget && budget <= MOST_BUDGET => Some(budget),
        _ => None,
    }
}

/// Whether a word has these bytes.
fn is_word(word: &String, bytes: &[u8]) -> bool
    ensures { result ≡ bytes_eq (string_bytes word.now) bytes.now }
{
    word.as_bytes() == bytes
}

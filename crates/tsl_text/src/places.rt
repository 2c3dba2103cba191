//! Lines and places of a text.

ghost use Rattle.std.specs.Prelude.{◌≡◌, ℕ, ◌+◌, ◌-◌, ◌<◌, ◌≤◌, ◌==◌, ◌^◌, length, take, count_by, IfSome, IfNone};
ghost use Rattle.tsl_text.specs.Places.{IsBetweenFeeds, IsColumn};

use crate::front::line_len;

/// A place in a text.
#[derive(Clone, Copy, Debug, PartialEq, Eq)]
pub struct Place {
    /// The line, counted from 1.
    pub line: u32,
    /// The column in bytes, counted from 1.
    pub column: u32,
}

/// The place of the byte at this offset, or of the text's end. It takes no memory.
#[tactic(auto, using(crate::proofs::PlaceLaws::place_none))]
pub fn place_of(text: &[u8], offset: u32) -> Place
    requires inside { offset ≤ length text.now }
    requires short { length text.now < 2 ^ 32 - 1 }
    ensures line { result.line ≡ 1 + count_by (λ byte. byte == 10) (take offset text.now) }
    ensures column { IsColumn (take offset text.now) result.column }
{
    let mut line = 1;
    let mut column = 1;
    for byte in &text[..offset as usize] {
        if *byte == b'\n' {
            line += 1;
            column = 1;
        } else {
            column += 1;
        }
    }
    Place { line, column }
}

/// Where the first line of the text that equals `line` begins. A line begins at 0 or after a line
/// feed, and ends at a line feed or at the end. `None` where no line equals it. It takes no memory.
pub fn line_at(text: &[u8], line: &[u8]) -> Option<u32>
    requires { length text.now < 2 ^ 32 - 1 }
    ensures found { IfSome result (IsBetweenFeeds text.now line.now) }
    ensures first { IfSome result (λ at. (other : ℕ) → IsBetweenFeeds text.now line.now other → at ≤ other) }
    ensures none { IfNone result ((at : ℕ) → IsBetweenFeeds text.now line.now at → ⊥) }
{
    let mut start = 0;
    while start <= text.len() {
        let rest = &text[start..];
        let len = line_len(rest);
        if &rest[..len] == line {
            return Some(start as u32);
        }
        start += len + 1;
    }
    None
}

//! Why there is no answer.

ghost use Rattle.std.specs.Prelude.{◌≡◌, ◌++◌, codes, decimal, IfOk};
ghost use Rattle.solve_tool.specs.Replies.{refusal_reply, refusal_status, refusal_words};

use base_library::NoMemory;
use std::alloc::Global;
use tool_io::{Reply, Status};
use tsl_text::{put_bytes, put_number};

/// Why there is no answer.
#[derive(Clone, Copy, Debug, PartialEq, Eq)]
pub(crate) enum Refusal {
    /// The words ask for nothing.
    OtherWords,
    /// The source failed.
    Unread,
    /// At this line the text is no formula.
    MalformedAt(u32),
    /// The source has more bytes than this.
    TooManyBytes(u32),
    /// The formula has more variables than this.
    TooManyVariables(u64),
    /// The formula has more clauses than this.
    TooManyClauses(u64),
}

impl Refusal {
    /// The reply of the refusal: its line.
    pub(crate) fn reply(self, alloc: Global) -> Result<Reply, NoMemory>
        ensures { IfOk result (λ reply. reply ≡ refusal_reply self) }
    {
        Ok(Reply::new(self.status(), self.text(alloc)?))
    }

    /// The status of the refusal.
    fn status(self) -> Status
        ensures { result ≡ refusal_status self }
    {
        match self {
            Refusal::OtherWords => Status::Usage,
            Refusal::Unread => Status::ReadFault,
            Refusal::MalformedAt(_) => Status::Reading,
            Refusal::TooManyBytes(_) | Refusal::TooManyVariables(_) | Refusal::TooManyClauses(_) =>
                Status::Large,
        }
    }

    /// The line that says it, with its line feed.
    fn text(self, alloc: Global) -> Result<Vec<u8>, NoMemory>
        ensures { IfOk result (λ text. text.items ≡ refusal_words self ++ codes "\n") }
    {
        match self {
            Refusal::OtherWords => said(alloc, b"usage: solve [--budget NUMBER] [--log]\n"),
            Refusal::Unread => said(alloc, b"fault read\n"),
            Refusal::MalformedAt(line) => {
                said_with(alloc, b"fault cnf ", u64::from(line), b" form\n")
            }
            Refusal::TooManyBytes(most) => {
                said_with(alloc, b"large text ", u64::from(most), b"\n")
            },
            Refusal::TooManyVariables(most) => {
                said_with(alloc, b"large variables ", most, b"\n")
            }
            Refusal::TooManyClauses(most) => said_with(alloc, b"large clauses ", most, b"\n"),
        }
    }
}

/// These bytes.
fn said(alloc: Global, bytes: &[u8]) -> Result<Vec<u8>, NoMemory>
    ensures { IfOk result (λ text. text.items ≡ bytes.now) }
{
    Ok(Vec::from_slice(alloc, bytes)?)
}

/// These bytes, a number, and these bytes.
fn said_with(alloc: Global, before: &[u8], number: u64, after: &[u8]) -> Result<Vec<u8>, NoMemory>
    ensures { IfOk result (λ text. text.items ≡ before.now ++ decimal number ++ after.now) }
{
    let mut text = said(alloc, before)?;
    put_number(&mut text, number)?;
    put_bytes(&mut text, after)?;
    Ok(text)
}

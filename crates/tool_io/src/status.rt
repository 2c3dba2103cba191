//! How a run ends.

ghost use Rattle.std.specs.Prelude.{◌≡◌};
ghost use Rattle.tool_io.specs.Statuses.{status_number, is_answer};

/// How a run ends.
#[derive(Clone, Copy, Debug, PartialEq, Eq)]
pub enum Status {
    /// The answer is yes, or what was asked for was written.
    Done,
    /// The answer is no.
    No,
    /// The words are refused.
    Usage,
    /// The text is refused at a place.
    Reading,
    /// A counted quantity passes its limit.
    Large,
    /// The solver's budget is spent.
    Spent,
    /// The source failed.
    ReadFault,
    /// A sink failed.
    WriteFault,
    /// Memory ran out.
    Memory,
}

impl Status {
    /// The number that a process ends with, from 0 to 8.
    pub fn number(self) -> u8
        ensures { result ≡ status_number self }
    {
        self as u8
    }

    /// Whether it is the answer to a question, whose text goes to the first sink.
    pub fn is_answer(self) -> bool
        ensures { result ≡ is_answer self }
    {
        matches!(self, Status::Done | Status::No | Status::Spent)
    }
}

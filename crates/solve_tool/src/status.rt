//! The number that the program ends with.

ghost use Rattle.std.specs.Prelude.{◌≡◌};
ghost use Rattle.solve_tool.specs.Numbers.{exit_number};

use tool_io::Status;

/// The number that a process ends with: 10, 20 and 0 for the answers, and 2 to 8 otherwise.
pub fn exit_number(status: Status) -> u8
    ensures { result ≡ exit_number status }
{
    match status {
        Status::Done => 10,
        Status::No => 20,
        Status::Spent => 0,
        Status::Usage => 2,
        Status::Reading => 3,
        Status::Large => 4,
        Status::ReadFault => 6,
        Status::WriteFault => 7,
        Status::Memory => 8,
    }
}

//! The reply at a fault.

ghost use Rattle.std.specs.Prelude.{◌≡◌, IfOk};
ghost use Rattle.command_faults.specs.Replies.{fault_status, fault_reply};

use base_library::NoMemory;
use std::alloc::Global;
use tool_io::{Reply, Status};
use tsl_report::{Fault, fault_text};

/// The reply at a fault: its line.
pub fn fault_reply(alloc: Global, fault: &Fault) -> Result<Reply, NoMemory>
    ensures { IfOk result (λ reply. reply ≡ fault_reply fault.now) }
{
    Ok(Reply::new(fault_status(fault), fault_text(alloc, fault)?))
}

/// The status at a fault.
fn fault_status(fault: &Fault) -> Status
    ensures { result ≡ fault_status fault.now }
{
    match fault {
        Fault::Usage => Status::Usage,
        Fault::Read => Status::ReadFault,
        Fault::Large(_, _) => Status::Large,
        _ => Status::Reading,
    }
}

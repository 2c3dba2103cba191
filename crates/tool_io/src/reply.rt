//! What a run says.

ghost use Rattle.std.specs.Prelude.{◌≡◌};

use crate::status::Status;
use base_library::Sequence;

/// What a run says: its status, and one text, which goes to the first sink where the status is an
/// answer and to the second otherwise.
#[derive(Drop)]
pub struct Reply {
    /// How the run ends, if nothing fails after this.
    pub status: Status,
    /// What is to be written.
    pub text: Sequence<u8>,
}

impl Reply {
    /// The reply of a status and a text. It takes no memory.
    pub fn new(status: Status, text: Vec<u8>) -> Reply
        ensures status { result.status ≡ status }
        ensures text { result.text ≡ text.items }
    {
        Reply {
            status,
            text: Sequence::from_vec(text),
        }
    }
}

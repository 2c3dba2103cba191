//! What runs leave where a device fails.

use crate::devices::{COPIED, COPY, Device, PLAIN, assert_says, run};
use std::test::Fail;
use tsl_tool::Status;

#[test]
fn a_sink_that_fails_at_any_call_keeps_what_came_before(rt: HostRuntime) -> Result<(), Fail> {
    let alloc = rt.alloc();
    assert_eq!(rt; COPIED.len(), 72);
    // One byte a call: the writes are the calls 1 to 72, and the flush is the last.
    for fails_at in 1..=74u64 {
        let to = Device {
            piece: 1,
            fails_at,
            ..PLAIN
        };
        let ran = run(alloc, &["synth", "--states", "1"], COPY, PLAIN, to, PLAIN)?;
        if fails_at == 74 {
            assert_says(&rt, &ran, Status::Done, COPIED);
        } else {
            assert_eq!(rt; ran.status, Status::WriteFault);
            assert_eq!(rt; ran.out.len() as u64, fails_at - 1);
            assert_eq!(rt; COPIED.starts_with(&ran.out), true);
            // What was written is not handed on, also where the flush alone fails.
            assert_eq!(rt; ran.is_handed_on, fails_at == 1);
            assert_eq!(rt; ran.err.is_empty(), true);
        }
    }
    Ok(())
}

/// The call of seven bytes at which the sink of errors fails, and what it has then.
const FAILING_ERRORS: &[(u64, &[u8])] = &[(1, b""), (2, b"usage: ")];

#[test]
fn a_sink_of_errors_that_fails_keeps_what_came_before(rt: HostRuntime) -> Result<(), Fail> {
    for (fails_at, written) in FAILING_ERRORS {
        let errors_to = Device {
            piece: 7,
            fails_at: *fails_at,
            ..PLAIN
        };
        let ran = run(rt.alloc(), &["frob"], COPY, PLAIN, PLAIN, errors_to)?;
        assert_eq!(rt; ran.status, Status::WriteFault);
        assert_eq!(rt; ran.err.as_slice(), *written);
        assert_eq!(rt; ran.out.is_empty(), true);
    }
    Ok(())
}

#[test]
fn a_sink_with_too_little_room_takes_a_front(rt: HostRuntime) -> Result<(), Fail> {
    let words = ["synth", "--states", "1"];
    for room in 0..72usize {
        let to = Device { room, ..PLAIN };
        let ran = run(rt.alloc(), &words, COPY, PLAIN, to, PLAIN)?;
        assert_eq!(rt; ran.status, Status::WriteFault);
        assert_eq!(rt; ran.out.len(), room);
        assert_eq!(rt; COPIED.starts_with(&ran.out), true);
        assert_eq!(rt; ran.err.is_empty(), true);
    }
    let to = Device { room: 72, ..PLAIN };
    let ran = run(rt.alloc(), &words, COPY, PLAIN, to, PLAIN)?;
    assert_says(&rt, &ran, Status::Done, COPIED);
    Ok(())
}

/// Texts, and how many calls of one byte take each: one for each byte, and one for the end.
const TAKEN: &[(&[u8], u64)] = &[(COPY, 31), (b"always guarantee { [y <- x]; }\n", 32)];

#[test]
fn a_source_that_fails_at_any_call_is_a_read_fault(rt: HostRuntime) -> Result<(), Fail> {
    for (text, calls) in TAKEN {
        for fails_at in 1..=33u64 {
            let from = Device {
                piece: 1,
                fails_at,
                ..PLAIN
            };
            let words = ["synth", "--states", "1"];
            let ran = run(rt.alloc(), &words, *text, from, PLAIN, PLAIN)?;
            if fails_at > *calls {
                assert_says(&rt, &ran, Status::Done, COPIED);
            } else {
                assert_says(&rt, &ran, Status::ReadFault, b"fault read\n");
            }
        }
    }
    Ok(())
}

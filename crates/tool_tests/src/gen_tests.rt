//! Generated specifications, and runs of `gen`.

use crate::devices::{Device, PLAIN, assert_says, run};
use generator::gen_text;
use std::test::Fail;
use tsl_tool::Status;

/// A device that fails at its first call.
const FAILING: Device = Device {
    piece: 1,
    fails_at: 1,
    ..PLAIN
};

const TWO: &[u8] = b"gen 2\npredicates 2\nupdates 2\noutcome program\n";

const THREE: &[u8] = b"gen 3\npredicates 3\nupdates 3\noutcome program\n";

#[test]
fn two_requests_have_a_program(rt: HostRuntime) -> Result<(), Fail> {
    let alloc = rt.alloc();
    // Nothing is read, so a source that fails is not called.
    for from in [PLAIN, FAILING] {
        let ran = run(alloc, &["gen", "2"], b"}", from, PLAIN, PLAIN)?;
        assert_says(&rt, &ran, Status::Done, TWO);
    }
    Ok(())
}

#[test]
fn three_requests_have_one_too_at_each_run(rt: HostRuntime) -> Result<(), Fail> {
    let alloc = rt.alloc();
    for words in [["gen", "3"], ["gen", "+3"]] {
        let ran = run(alloc, &words, b"", PLAIN, PLAIN, PLAIN)?;
        assert_says(&rt, &ran, Status::Done, THREE);
    }
    Ok(())
}

/// The specification of two requests.
const REQUESTS: &[u8] =
    b"always guarantee {\nreq r0 -> F [g <- pick r0];\nreq r1 -> F [g <- pick r1];\n}\n";

#[test]
fn two_requests_are_answered(rt: HostRuntime) -> Result<(), Fail> {
    let text = gen_text(rt.alloc(), 2)?;
    assert!(rt; text.as_slice() == REQUESTS);
    Ok(())
}

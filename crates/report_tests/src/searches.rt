//! The texts of searches, over a space without bits.

use logic_values::{no_bits, still_environment};
use machines::Round;
use spec_values::{copying_window, names_of_copies};
use std::test::Fail;
use tsl_report::{environment_text, rounds_text, window_text};
use tsl_terms::Names;

#[test]
fn empty_lists_leave_no_space(rt: HostRuntime) -> Result<(), Fail> {
    let alloc = rt.alloc();
    let names = Names::new(alloc);
    let text = environment_text(alloc, &names, &no_bits(alloc), &still_environment(alloc)?)?;
    assert_eq!(rt;
        text.as_slice(),
        b"environment 1\nvector 0\nstate 0 truths to 0\n".as_slice()
    );
    Ok(())
}

#[test]
fn rounds_have_an_environment_and_a_window(rt: HostRuntime) -> Result<(), Fail> {
    let alloc = rt.alloc();
    let names = names_of_copies(alloc)?;
    let window = window_text(alloc, &names, &copying_window(alloc)?)?;
    assert_eq!(rt;
        window.as_slice(),
        b"window p x at 0 is p y at 1 when [y <- x] at 0\n".as_slice()
    );
    let round = Round {
        environment: still_environment(alloc)?,
        window: copying_window(alloc)?,
    };
    let text = rounds_text(alloc, &names, &no_bits(alloc), &[round])?;
    let wanted = b"round 0\nenvironment 1\nvector 0\nstate 0 truths to 0\n\
        window p x at 0 is p y at 1 when [y <- x] at 0\n";
    assert_eq!(rt; text.as_slice(), wanted.as_slice());
    Ok(())
}

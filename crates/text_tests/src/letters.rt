//! Loops of letters as texts.

use lasso_text::{read_letters, write_letters};
use std::process::Abort;
use std::test::Fail;

/// Texts over three propositions, and the text of the loop that each tells.
const LOOPS: &[(&[u8], &[u8])] = &[
    (b"letter\nback 0\n", b"letter\nback 0\n"),
    (
        b"letter 0 2\nletter\nletter 1\nback 1",
        b"letter 0 2\nletter\nletter 1\nback 1\n",
    ),
];

#[test]
fn a_loop_is_read_and_written(rt: HostRuntime) -> Result<(), Fail> {
    for &(text, expected) in LOOPS {
        assert!(rt; text.len() < 100);
        let mut out = Vec::new(rt.alloc());
        match read_letters(rt.alloc(), text, 3) {
            Ok(found) => write_letters(&mut out, &found)?,
            Err(_) => {}
        }
        assert_eq!(rt; out.as_slice(), expected);
    }
    Ok(())
}

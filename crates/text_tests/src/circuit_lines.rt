//! Circuits as texts.

use circuit_text::read_circuit;
use std::process::Abort;
use std::test::Fail;

/// Texts, and of each its inputs, the next literals of its latches, its outputs and what its gates
/// join; or its first wrong line.
const TEXTS: &[(&[u8], &str)] = &[
    (b"aag 0 0 0 1 0\n1\n", "0 [] [1] []"),
    (
        b"aag 3 1 1 2 1\n2\n4 7\n4\n6\n6 2 5\n",
        "1 [7] [4, 6] [(2, 5)]",
    ),
    (b"", "Form(1)"),
    (b"aag 1 0 0 1 0\n1\n", "Form(1)"),
    (b"aag 2147483648 2147483648 0 0 0\n2\n", "Form(1)"),
    (b"aag 0 0 0 4294967296 0\n0\n", "Form(1)"),
    (b"aag 1 1 0 0 0\n3\n", "Form(2)"),
    (b"aag 1 0 1 0 0\n2 4\n", "Form(2)"),
    (b"aag 0 0 0 1 0\n01\n", "Form(2)"),
    (b"aag 0 0 0 1 0\n1", "Form(2)"),
    (b"aag 0 0 0 1 0\n", "Form(2)"),
    (b"aag 1 1 0 1 0\n2\n4\n", "Form(3)"),
    (b"aag 0 0 0 1 0\n1\nc\n", "Form(3)"),
    (b"aag 2 1 0 1 1\n2\n4\n4 2 5\n", "Form(4)"),
    (b"aag 2 1 0 1 1\n2\n4 2 3\n4\n", "Form(3)"),
];

#[test]
fn a_circuit_is_told_or_its_first_wrong_line(rt: HostRuntime) -> Result<(), Fail> {
    for &(text, expected) in TEXTS {
        assert!(rt; text.len() < 100);
        let answer = match read_circuit(rt.alloc(), text) {
            Ok(found) => {
                let mut pairs = Vec::new(rt.alloc());
                for gate in found.gates.as_slice() {
                    pairs.push((gate.left, gate.right))?;
                }
                let latches = found.latches.as_slice();
                let outputs = found.outputs.as_slice();
                format!(in rt.alloc(); "{} {latches:?} {outputs:?} {pairs:?}", found.inputs)?
            }
            Err(error) => format!(in rt.alloc(); "{error:?}")?,
        };
        assert_eq!(rt; answer.as_str(), expected);
    }
    Ok(())
}

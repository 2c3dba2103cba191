//! Automata that are read and written.

use automaton_text::{read_automaton, write_automaton};
use logic_values::no_bits;
use std::test::Fail;
use tsl_terms::Names;

/// The automaton of a formula that holds of each loop.
const ALWAYS: &[u8] =
    b"HOA: v1\nStates: 2\nStart: 0\nAP: 0\nacc-name: Buchi\nAcceptance: 1 Inf(0)\n--BODY--\n\
    State: 0\n[t] 1 {0}\nState: 1\n[t] 1 {0}\n--END--\n";

#[test]
fn an_automaton_that_was_read_is_written_again(rt: HostRuntime) -> Result<(), Fail> {
    let alloc = rt.alloc();
    let names = Names::new(alloc);
    let Ok(automaton) = read_automaton(alloc, ALWAYS) else {
        return Err(Fail::new("the text tells an automaton"));
    };
    let text = write_automaton(alloc, &names, &no_bits(alloc), &automaton)?;
    assert_eq!(rt; text.as_slice(), ALWAYS);
    Ok(())
}

//! Circuits of programs, automata of specifications, and loops of letters that automata accept.

use crate::check_tests::{ARBITER, IN_TURN, TESTED, TESTS};
use crate::devices::{
    COPIED, Case, PLAIN, Repeated, assert_each, assert_repeated, assert_run, run,
};
use circuit_text::read_circuit;
use circuits::Circuit;
use std::alloc::{AllocError, Global};
use std::process::Abort;
use std::test::Fail;

/// The bound that is asked for, a specification, a program, and what `circuit` says of them.
type Pair = (&'static str, &'static [u8], &'static [u8], &'static [u8]);

/// An output copies an input.
const COPY: &[u8] = b"always guarantee { [y <- x]; }\n";

/// Programs that are accepted, and those of which `check` says no or a fault.
const CIRCUITS: &[Pair] = &[
    ("2", COPY, COPIED, b"aag 0 0 0 1 0\n1\n"),
    ("1", ARBITER, IN_TURN, b"aag 1 0 1 2 0\n2 3\n3\n2\n"),
    ("0", ARBITER, IN_TURN, b"refused bound 0\n"),
    ("2", TESTED, TESTS, b"aag 2 2 0 2 0\n2\n4\n2\n3\n"),
    (
        "2",
        b"always guarantee { p x -> [y <- x]; }\n",
        b"tslprogram 1\ninput x\noutput y\nwindow p x at 0 is p x at 1\nnode 0 set [y <- x] go 0\nstate 0 at 0\nend\n",
        b"refused window 0\n",
    ),
    ("2", ARBITER, COPIED, b"refused signals\n"),
    ("2", COPY, b"tslprogram 2\n", b"fault parts program\n"),
    (
        "2",
        b"guarantee { a U b && c; }\n",
        COPIED,
        b"fault spec 1:19 form\n",
    ),
    (
        "2",
        COPY,
        b"tslprogram 1\ninput x\noutput y\nnode 0 set go 0\nstate 0 at 0\nend\n",
        b"fault program 4 updates\n",
    ),
];

#[test]
fn circuits_are_of_programs_that_are_accepted(rt: HostRuntime) -> Result<(), Fail> {
    let alloc = rt.alloc();
    for &(bound, spec, program, says) in CIRCUITS {
        let mut text = Vec::from_slice(alloc, spec)?;
        text.extend_from_slice(program)?;
        assert_run(&rt, alloc, &["circuit", "--bound", bound], &text, says)?;
    }
    Ok(())
}

/// The truth of a literal, where that of each variable is known, variable 0 being false.
fn truth(known: &[bool], literal: u32) -> bool {
    let value = match known.get((literal / 2) as usize) {
        Some(value) => *value,
        None => false,
    };
    if literal % 2 == 1 { !value } else { value }
}

/// The truths of literals.
fn truths(alloc: Global, known: &[bool], literals: &[u32]) -> Result<Vec<bool>, AllocError> {
    let mut found = Vec::new(alloc);
    for literal in literals {
        found.push(truth(known, *literal))?;
    }
    Ok(found)
}

/// The truths of all variables of a circuit without inputs, where those of its latches are these.
fn variables(alloc: Global, circuit: &Circuit, latches: &[bool]) -> Result<Vec<bool>, AllocError> {
    let mut known = Vec::new(alloc);
    known.push(false)?;
    known.extend_from_slice(latches)?;
    for gate in circuit.gates.as_slice() {
        let both = truth(&known, gate.left) && truth(&known, gate.right);
        known.push(both)?;
    }
    Ok(known)
}

/// The circuit that a text tells.
fn circuit_in(rt: &impl Abort, alloc: Global, text: &[u8]) -> Result<Circuit, Fail> {
    assert!(rt; text.len() < 4_000_000_000);
    match read_circuit(alloc, text) {
        Ok(circuit) => Ok(circuit),
        Err(_) => Err(Fail::new("the text tells no circuit")),
    }
}

/// Asserts which outputs are true.
fn outputs_are(rt: &impl Abort, outputs: &[bool], expected: &[bool]) {
    assert!(rt; outputs == expected);
}

/// The outputs of the circuit of a program that grants by turns are true by turns.
#[test]
fn turns(rt: HostRuntime) -> Result<(), Fail> {
    let alloc = rt.alloc();
    let mut text = Vec::from_slice(alloc, ARBITER)?;
    text.extend_from_slice(IN_TURN)?;
    let ran = run(alloc, &["circuit"], &text, PLAIN, PLAIN, PLAIN)?;
    let circuit = circuit_in(&rt, alloc, &ran.out)?;
    assert_eq!(rt; circuit.inputs, 0);
    let mut latches: Vec<bool> = vec![in alloc; false; circuit.latches.len()]?;
    for step in 0..10u32 {
        let known = variables(alloc, &circuit, &latches)?;
        let outputs = truths(alloc, &known, circuit.outputs.as_slice())?;
        let is_even = step % 2 == 0;
        outputs_are(&rt, &outputs, &[is_even, !is_even]);
        latches = truths(alloc, &known, circuit.latches.as_slice())?;
    }
    Ok(())
}

/// The automaton of a formula that holds of each loop.
const ALWAYS: &[u8] =
    b"HOA: v1\nStates: 2\nStart: 0\nAP: 0\nacc-name: Buchi\nAcceptance: 1 Inf(0)\n--BODY--\n\
    State: 0\n[t] 1 {0}\nState: 1\n[t] 1 {0}\n--END--\n";

/// The same without its marks.
const UNMARKED: &[u8] =
    b"HOA: v1\nStates: 2\nStart: 0\nAP: 0\nacc-name: Buchi\nAcceptance: 1 Inf(0)\n--BODY--\n\
    State: 0\n[t] 1\nState: 1\n[t] 1\n--END--\n";

/// Specifications with spaces, up to the limit and one more, and the automata of their negations.
const NEGATED: &[Repeated] = &[
    (b"guarantee { false;", b" ", 1, b"}", ALWAYS),
    (b"guarantee { false;", b" ", 1_048_557, b"}", ALWAYS),
    (
        b"guarantee { false;",
        b" ",
        1_048_558,
        b"}",
        b"large text 1048576\n",
    ),
];

#[test]
fn automata_are_of_the_negation(rt: HostRuntime) -> Result<(), Fail> {
    assert_repeated(&rt, rt.alloc(), &["automaton"], NEGATED)?;
    Ok(())
}

/// What comes after the automaton that accepts each loop, and what `accepts` says.
const LETTERS: &[Case] = &[
    (b"letters\nletter\nback 0", b"accepted\n"),
    (b"letters\nletter\nletter\nback 1\n", b"accepted\n"),
    (b"letters\nletter\nback 1", b"fault letters 2 form\n"),
    (b"letters\nletter 0\nback 0\n", b"fault letters 1 form\n"),
    (b"letters\nletter\nletter\n", b"fault letters 3 form\n"),
    (b"letters\nletter\nback 0\n\n", b"fault letters 3 form\n"),
    (b"letters", b"fault letters 1 form\n"),
    // The letters begin after the first line `letters`.
    (
        b"letters\nletters\nletter\nback 0\n",
        b"fault letters 1 form\n",
    ),
    (b"", b"fault parts letters\n"),
    (b"letter\nback 0\n", b"fault parts letters\n"),
    (b"letters \nletter\nback 0\n", b"fault parts letters\n"),
    // The automaton goes on to that line.
    (b"\nletters\nletter\nback 0\n", b"fault automaton 13 form\n"),
];

/// The same for the automaton without marks.
const REJECTED: &[Case] = &[
    (b"letters\nletter\nback 0", b"rejected\n"),
    (b"letters\nletter\nletter\nback 1\n", b"rejected\n"),
];

/// Texts whose automaton has a wrong line, and what is said of it; or without letters.
const AUTOMATA: &[Case] = &[
    (b"letters\nletter\nback 0", b"fault automaton 1 form\n"),
    (
        b"HOA: v1\nStates: 0\nletters\nletter 7\n",
        b"fault automaton 2 form\n",
    ),
    (
        b"HOA: v1\nStates: 1\nStart: 0\nletters\nletter\nback 0\n",
        b"fault automaton 4 form\n",
    ),
    // A part that is missing is told first.
    (b"HOA: v2\n", b"fault parts letters\n"),
];

#[test]
fn loops_are_accepted_or_rejected(rt: HostRuntime) -> Result<(), Fail> {
    let alloc = rt.alloc();
    assert_each(&rt, alloc, &["accepts"], ALWAYS, LETTERS)?;
    assert_each(&rt, alloc, &["accepts"], b"", AUTOMATA)?;
    assert_each(&rt, alloc, &["accepts"], UNMARKED, REJECTED)?;
    Ok(())
}

/// The front of an automaton with so many propositions, before their names.
const SIXTY_FOUR: &[u8] = b"HOA: v1\nStates: 1\nStart: 0\nAP: 64";

const SIXTY_FIVE: &[u8] = b"HOA: v1\nStates: 1\nStart: 0\nAP: 65";

/// Automata that ask for the last proposition of 64, or for the same one of 65, and loops of one letter.
const PROPOSITIONS: &[Repeated] = &[
    (
        SIXTY_FOUR,
        b" \"\"",
        64,
        b"\nacc-name: Buchi\nAcceptance: 1 Inf(0)\n--BODY--\nState: 0\n[63] 0 {0}\n--END--\nletters\nletter 63\nback 0\n",
        b"accepted\n",
    ),
    (
        SIXTY_FOUR,
        b" \"\"",
        64,
        b"\nacc-name: Buchi\nAcceptance: 1 Inf(0)\n--BODY--\nState: 0\n[63] 0 {0}\n--END--\nletters\nletter 0 62\nback 0\n",
        b"rejected\n",
    ),
    (
        SIXTY_FOUR,
        b" \"\"",
        64,
        b"\nacc-name: Buchi\nAcceptance: 1 Inf(0)\n--BODY--\nState: 0\n[63] 0 {0}\n--END--\nletters\nletter 64\nback 0\n",
        b"fault letters 1 form\n",
    ),
    // One too many, which is said before the letters are read.
    (
        SIXTY_FIVE,
        b" \"\"",
        65,
        b"\nacc-name: Buchi\nAcceptance: 1 Inf(0)\n--BODY--\nState: 0\n[63] 0 {0}\n--END--\nletters\n",
        b"large bits 64\n",
    ),
    // A wrong line is said before that.
    (
        SIXTY_FIVE,
        b" \"\"",
        65,
        b"\nacc-name: Buchi\nAcceptance: 1 Inf(0)\n--BODY--\nletters\n",
        b"fault automaton 8 form\n",
    ),
];

#[test]
fn sixty_four_propositions_are_read_and_sixty_five_are_too_many(
    rt: HostRuntime,
) -> Result<(), Fail> {
    assert_repeated(&rt, rt.alloc(), &["accepts"], PROPOSITIONS)?;
    Ok(())
}

//! Automata against those that a plain program works out from the definitions.

use cobuchi_automata::{Automaton, Edge, build};
use logic_values::next;
use ltl_formula::{Ltl, LtlList};
use std::alloc::Global;
use std::process::Abort;
use std::test::Fail;

/// Takes the last of some formulas.
fn taken(formulas: &mut Vec<Ltl>) -> Result<Ltl, Fail> {
    match formulas.pop() {
        Some(formula) => Ok(formula),
        None => Err("an operand is missing".into()),
    }
}

/// Takes the formulas since the last mark.
fn taken_list(
    alloc: Global,
    formulas: &mut Vec<Ltl>,
    marks: &mut Vec<usize>,
) -> Result<LtlList, Fail> {
    let mark = marks.pop().unwrap_or(0).min(formulas.len());
    let members = formulas.split_off(mark)?;
    Ok(LtlList::from_vec(alloc, members)?)
}

/// The formula of an operator, whose operands are the last of some formulas.
fn formula_of(
    alloc: Global,
    byte: u8,
    formulas: &mut Vec<Ltl>,
    marks: &mut Vec<usize>,
) -> Result<Ltl, Fail> {
    match byte {
        b't' => Ok(Ltl::True),
        b'f' => Ok(Ltl::False),
        b'0'..=b'9' => Ok(Ltl::Bit(u32::from(byte - b'0'))),
        b'a'..=b'e' => Ok(Ltl::NotBit(u32::from(byte - b'a'))),
        b'&' => Ok(Ltl::All(taken_list(alloc, formulas, marks)?)),
        b'|' => Ok(Ltl::Any(taken_list(alloc, formulas, marks)?)),
        b'X' => Ok(next(alloc, taken(formulas)?)?),
        b'U' => {
            let right = Box::new(alloc, taken(formulas)?)?;
            Ok(Ltl::Until(Box::new(alloc, taken(formulas)?)?, right))
        }
        b'R' => {
            let right = Box::new(alloc, taken(formulas)?)?;
            Ok(Ltl::Release(Box::new(alloc, taken(formulas)?)?, right))
        }
        _ => Err("no operator".into()),
    }
}

/// The formula that a text spells, operands first: `t`, `f`, a digit for a bit that is set, a letter from
/// `a` for one that is not, `X`, `U`, `R`, and `&` and `|` over all since the last `(`.
fn formula(alloc: Global, text: &[u8]) -> Result<Ltl, Fail> {
    let mut formulas = Vec::new(alloc);
    let mut marks = Vec::new(alloc);
    for byte in text {
        if *byte == b'(' {
            marks.push(formulas.len())?;
        } else {
            let made = formula_of(alloc, *byte, &mut formulas, &mut marks)?;
            formulas.push(made)?;
        }
    }
    taken(&mut formulas)
}

/// An edge: its first state, its cube, its second state, and a mark where it is rejecting.
fn edge_text(alloc: Global, edge: &Edge) -> Result<String, Fail> {
    let mark = if edge.rejecting { "!" } else { "" };
    let (care, want) = (edge.cube.care, edge.cube.want);
    Ok(format!(in alloc; ", {} {care}/{want} {}{mark}", edge.from, edge.to)?)
}

/// The number of states, and then the edges.
fn automaton_text(alloc: Global, automaton: &Automaton) -> Result<String, Fail> {
    let mut text = format!(in alloc; "{}", automaton.states)?;
    for edge in automaton.edges.as_slice() {
        let line = edge_text(alloc, edge)?;
        text.push_str(&line)?;
    }
    Ok(text)
}

/// Asserts the automata of formulas, states numbered as they first appear.
fn are_built(rt: &impl Abort, alloc: Global, automata: &[(&[u8], &str)]) -> Result<(), Fail> {
    for &(text, expected) in automata {
        match build(alloc, &formula(alloc, text)?) {
            Ok(automaton) => {
                assert_eq!(rt; automaton_text(alloc, &automaton)?.as_str(), expected);
            }
            Err(_) => return Err("an automaton is refused".into()),
        }
    }
    Ok(())
}

/// Constants and bits, and their automata.
const CONSTANTS: &[(&[u8], &str)] = &[
    (b"t", "2, 0 0/0 1!, 1 0/0 1!"),
    (b"f", "1"),
    (b"(&", "2, 0 0/0 1!, 1 0/0 1!"),
    (b"(|", "1"),
    (b"0", "2, 0 1/1 1!, 1 0/0 1!"),
    (b"a", "2, 0 1/0 1!, 1 0/0 1!"),
    (b"(0a&", "1"),
    (b"(0a|", "2, 0 1/1 1!, 0 1/0 1!, 1 0/0 1!"),
];

#[test]
fn constants_and_bits(rt: HostRuntime) -> Result<(), Fail> {
    are_built(&rt, rt.alloc(), CONSTANTS)
}

/// Untils, and their automata.
const UNTILS: &[(&[u8], &str)] = &[
    (b"t0U", "2, 0 1/1 1!, 0 0/0 0, 1 0/0 1!"),
    (b"01U", "2, 0 2/2 1!, 0 1/1 0, 1 0/0 1!"),
    (
        b"0t1UU",
        "3, 0 2/2 1!, 0 0/0 2, 0 1/1 0, 1 0/0 1!, 2 2/2 1!, 2 0/0 2",
    ),
    (
        b"0t0UU",
        "3, 0 1/1 1!, 0 0/0 2, 1 0/0 1!, 2 1/1 1!, 2 0/0 2",
    ),
    (
        b"01U2U",
        "4, 0 4/4 1!, 0 2/2 0, 0 1/1 2, 1 0/0 1!, 2 6/6 1!, 2 2/2 0, 2 5/5 3, 2 1/1 2, 3 2/2 1!, 3 1/1 3",
    ),
    (b"t(00X&U", "3, 0 1/1 1!, 0 0/0 0, 1 1/1 2!, 2 0/0 2!"),
    (
        b"(t0U0a|",
        "3, 0 1/1 1!, 0 0/0 2, 0 1/0 1!, 1 0/0 1!, 2 1/1 1!, 2 0/0 2",
    ),
];

#[test]
fn untils(rt: HostRuntime) -> Result<(), Fail> {
    are_built(&rt, rt.alloc(), UNTILS)
}

/// Several untils, and their automata.
const SEVERAL: &[(&[u8], &str)] = &[
    (
        b"(t0Ut1U&",
        "5, 0 3/3 1!, 0 1/1 2, 0 2/2 3, 0 0/0 4, 1 0/0 1!, 2 2/2 1!, 2 0/0 2, 3 1/1 1!, 3 0/0 3, \
         4 3/3 1!, 4 1/1 2, 4 2/2 3, 4 0/0 4",
    ),
    (
        b"(t0Ut1U|",
        "4, 0 1/1 1!, 0 0/0 2, 0 2/2 1!, 0 0/0 3, 1 0/0 1!, 2 1/1 1!, 2 0/0 2, 3 2/2 1!, 3 0/0 3",
    ),
    (
        b"(tfaRUtfbRU|",
        "5, 0 1/0 1!, 0 0/0 2, 0 2/0 3!, 0 0/0 4, 1 1/0 1!, 2 1/0 1!, 2 0/0 2, 3 2/0 3!, 4 2/0 3!, 4 0/0 4",
    ),
    (
        b"(t0Ut1Ut2U&",
        "9, 0 7/7 1!, 0 3/3 2, 0 5/5 3, 0 1/1 4, 0 6/6 5, 0 2/2 6, 0 4/4 7, 0 0/0 8, 1 0/0 1!, 2 4/4 1!, \
         2 0/0 2, 3 2/2 1!, 3 0/0 3, 4 6/6 1!, 4 2/2 2, 4 4/4 3, 4 0/0 4, 5 1/1 1!, 5 0/0 5, 6 5/5 1!, \
         6 1/1 2, 6 4/4 5, 6 0/0 6, 7 3/3 1!, 7 1/1 3, 7 2/2 5, 7 0/0 7, 8 7/7 1!, 8 3/3 2, 8 5/5 3, \
         8 1/1 4, 8 6/6 5, 8 2/2 6, 8 4/4 7, 8 0/0 8",
    ),
];

#[test]
fn several_untils_are_waited_for_in_turn(rt: HostRuntime) -> Result<(), Fail> {
    are_built(&rt, rt.alloc(), SEVERAL)
}

//! The command `accepts`.

ghost use Rattle.std.specs.Prelude.{◌≡◌, ◌↔◌, ◌<◌, ◌≤◌, ◌^◌, Bool, true, length, drop, IfOk, IsTrue, nat_lt};
ghost use Rattle.std.specs.List.{list_all};
ghost use Rattle.lasso_text.specs.LetterText.{IsLoop};
ghost use Rattle.lasso_text.specs.LoopView.{loop_tree};
ghost use Rattle.cobuchi_automata.specs.Edges.{edge_trees};
ghost use Rattle.loop_acceptance.specs.Accepts.{Accepts, loop_of};
ghost use Rattle.automaton_text.specs.HoaText.{IsHoaText};
ghost use Rattle.automaton_text.specs.HoaRefusals.{IsSmall};
ghost use Rattle.exchange_commands.specs.Letters.{letter_of, letters_of};
ghost use Rattle.exchange_commands.specs.Accepts.{AcceptsOutcome, LoopOutcome, IsAutomatonFault, verdict_reply};

use automaton_text::{Hoa, HoaError, read_hoa};
use base_library::NoMemory;
use cobuchi_automata::{Automaton, MOST_AUTOMATON_EDGES, MOST_AUTOMATON_STATES};
use command_faults::{cut_before, fault_reply};
use lasso_text::{Letter, LetterLoop, read_letters};
use letter_space::MOST_BITS;
use line_formats::TextError;
use loop_acceptance::judge_loop;
use std::alloc::Global;
use tool_io::{Reply, Status};
use tsl_report::{Fault, Head, LimitName};

/// The line between an automaton and a loop of letters.
const LETTERS_LINE: &[u8] = b"letters";

/// What `accepts` replies to these bytes: whether the automaton before their first line `letters` accepts the
/// loop of letters after it, or why there is no answer.
pub fn accepts(alloc: Global, bytes: &[u8]) -> Result<Reply, NoMemory>
    requires { length bytes.now ≤ 2 ^ 24 }
    ensures { IfOk result (AcceptsOutcome bytes.now) }
{
    match cut_before(bytes, LETTERS_LINE) {
        Some((automaton, rest)) => reply_to_parts(alloc, automaton, after_line(rest)),
        None => fault_reply(alloc, &Fault::Parts(Head::Letters)),
    }
}

/// What comes after the line `letters` that a text begins with.
fn after_line(text: &[u8]) -> &[u8]
    ensures { result.now ≡ drop 8 text.now }
{
    let start = LETTERS_LINE.len() + 1;
    &text[start.min(text.len())..]
}

/// What is replied to the text of an automaton and that of letters.
fn reply_to_parts(alloc: Global, automaton: &[u8], letters: &[u8]) -> Result<Reply, NoMemory>
    requires automaton { length automaton.now ≤ 2 ^ 24 }
    requires letters { length letters.now ≤ 2 ^ 24 }
    ensures { IfOk result (LoopOutcome (record { automaton = automaton.now; letters = letters.now })) }
{
    match read_hoa(alloc, automaton) {
        Ok(hoa) => reply_to_letters(alloc, automaton, &hoa, letters),
        Err(error) => {
            let fault = automaton_fault(error)?;
            fault_reply(alloc, &fault)
        }
    }
}

/// The fault of a refusal of an automaton.
fn automaton_fault(error: HoaError) -> Result<Fault, NoMemory>
    ensures { IfOk result (IsAutomatonFault error) }
{
    match error {
        HoaError::Form(line) => Ok(Fault::AutomatonForm(line)),
        HoaError::Bits => Ok(Fault::Large(LimitName::Bits, MOST_BITS as u32)),
        HoaError::States => Ok(Fault::Large(LimitName::States, MOST_AUTOMATON_STATES as u32)),
        HoaError::Edges => Ok(Fault::Large(LimitName::Edges, MOST_AUTOMATON_EDGES as u32)),
        HoaError::NoMemory => Err(NoMemory),
    }
}

/// What is replied to an automaton, which its text spells, and the text of letters.
fn reply_to_letters(
    alloc: Global,
    text: &[u8],
    hoa: &Hoa,
    letters: &[u8],
) -> Result<Reply, NoMemory>
    requires spelled { IsHoaText text.now hoa.now.bits hoa.now.automaton.states (edge_trees hoa.now.automaton.edges) }
    requires small { IsSmall hoa.now.bits hoa.now.automaton.states (edge_trees hoa.now.automaton.edges) }
    requires letters { length letters.now ≤ 2 ^ 24 }
    ensures { IfOk result (LoopOutcome (record { automaton = text.now; letters = letters.now })) }
{
    match read_letters(alloc, letters, hoa.bits) {
        Ok(found) => verdict_on(alloc, &hoa.automaton, hoa.bits, &found),
        Err(TextError::Form(line)) => fault_reply(alloc, &Fault::LettersForm(line)),
        Err(TextError::NoMemory) => Err(NoMemory),
    }
}

/// Whether an automaton accepts a loop of letters over so many bits.
fn verdict_on(
    alloc: Global,
    automaton: &Automaton,
    bits: u32,
    found: &LetterLoop,
) -> Result<Reply, NoMemory>
    requires few_bits { bits ≤ 64 }
    requires is_loop { IsLoop bits (loop_tree found.now) }
    requires few_letters { length found.now.letters < 2 ^ 32 }
    ensures { IfOk result (λ reply. (holds : Bool) × (reply ≡ verdict_reply holds)
        × ((holds ≡ true) ↔ Accepts (edge_trees automaton.now.edges)
        (loop_of (letters_of (loop_tree found.now).letters) (loop_tree found.now).back))) }
{
    let letters = letter_numbers(alloc, bits, found)?;
    let holds = judge_loop(alloc, automaton, &letters, found.back as u32)?;
    reply_of(alloc, holds)
}

/// The line of a verdict.
fn reply_of(alloc: Global, holds: bool) -> Result<Reply, NoMemory>
    ensures { IfOk result (λ reply. reply ≡ verdict_reply holds) }
{
    if holds {
        let text = Vec::from_slice(alloc, b"accepted\n")?;
        return Ok(Reply::new(Status::Done, text));
    }
    let text = Vec::from_slice(alloc, b"rejected\n")?;
    Ok(Reply::new(Status::No, text))
}

/// The letters of a loop as numbers.
fn letter_numbers(alloc: Global, bits: u32, found: &LetterLoop) -> Result<Vec<u64>, NoMemory>
    requires few_bits { bits ≤ 64 }
    requires is_loop { IsLoop bits (loop_tree found.now) }
    ensures { IfOk result (λ letters. letters.items ≡ letters_of (loop_tree found.now).letters) }
{
    let mut letters = Vec::new(alloc);
    for letter in found.letters.as_slice() {
        letters.push(letter_number(letter))?;
    }
    Ok(letters)
}

/// A letter as a number.
fn letter_number(letter: &Letter) -> u64
    requires { IsTrue (list_all (λ n. nat_lt n 64) letter.now.propositions) }
    ensures { result ≡ letter_of letter.now.propositions }
{
    let mut number = 0;
    for proposition in letter.propositions.as_slice() {
        number |= 1 << *proposition;
    }
    number
}

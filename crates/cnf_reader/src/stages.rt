//! What comes next in a formula's text, and what a word or a line changes in that.

ghost use Rattle.std.specs.Prelude.{◌≡◌, ◌<◌, ◌≤◌, ℕ, nat_abs, cond, ◌∷◌, List, Some, IfOk, IfSome, is_some};
ghost use Rattle.tsl_text.specs.Numbers.{signed_number_in};
ghost use Rattle.cnf_reader.specs.CnfText.{is_right};
ghost use Rattle.cnf_reader.specs.internal.Stages.{at_end, at_comment, at_data_line, after_long_word, header_stage, header_tells};
ghost use Rattle.cnf_reader.specs.internal.Reading.{answer_at};
ghost use Rattle.cnf_reader.specs.internal.Places.{tells};

use crate::places::Word;
use crate::told::{Counts, Told};
use base_library::NoMemory;
use std::alloc::Global;
use tsl_text::number_in;

/// What comes next in the header.
#[derive(Clone, Copy)]
pub(crate) enum Heading {
    /// The word `p`.
    Kind,
    /// The word `cnf`.
    Form,
    /// The number of variables.
    Variables,
    /// The number of clauses, after this number of variables.
    Clauses(u64),
    /// The end of the line.
    Ended,
}

/// What comes next in a text.
#[derive(Clone, Copy)]
pub(crate) enum Stage {
    /// Comments, and then the header. The line that is read is a comment.
    Comments,
    /// What is left of the header.
    Header(Heading),
    /// Numbers.
    Numbers,
    /// Nothing: the first wrong word is on this line.
    Wrong(u32),
}

impl Stage {
    /// What comes next where this line ends and a comment begins.
    pub fn at_comment(self, line: u32) -> Stage
        ensures { result ≡ at_comment self line }
    {
        match self {
            Stage::Header(heading) => heading.at_end(line),
            _ => self,
        }
    }

    /// What comes next where this line ends and one begins that is no comment.
    pub fn at_data_line(self, line: u32) -> Stage
        ensures { result ≡ at_data_line self line }
    {
        match self {
            Stage::Comments => Stage::Header(Heading::Kind),
            Stage::Header(heading) => heading.at_end(line),
            _ => self,
        }
    }

    /// What comes next after a part of a word on this line that is longer than any right word.
    pub fn after_long_word(self, line: u32) -> Stage
        ensures { result ≡ after_long_word self line }
    {
        match self {
            Stage::Comments => Stage::Comments,
            Stage::Wrong(line) => Stage::Wrong(line),
            _ => Stage::Wrong(line),
        }
    }
}

impl Heading {
    /// What comes next where the header's line ends.
    fn at_end(self, line: u32) -> Stage
        ensures { result ≡ at_end self line }
    {
        match self {
            Heading::Ended => Stage::Numbers,
            _ => Stage::Wrong(line),
        }
    }
}

/// What comes next after the word, and what it tells.
#[inline(always)]
pub(crate) fn add_word(
    told: &mut Told,
    alloc: Global,
    stage: Stage,
    word: Word<'_>,
) -> Result<Stage, NoMemory>
    requires { word.number ≡ signed_number_in word.bytes.now }
    ensures { IfOk result (λ next. (words : List (List ℕ)) (later : List ℕ) →
        answer_at stage (tells told.old) word.entry.line (word.entry.bytes.now ∷ words) later
        ≡ answer_at next (tells told.new) word.entry.line words later) }
{
    match stage {
        Stage::Comments => Ok(Stage::Comments),
        Stage::Header(heading) => Ok(add_header_word(told, alloc, heading, word.line, word.bytes)),
        Stage::Numbers => add_number(told, alloc, word),
        Stage::Wrong(line) => Ok(Stage::Wrong(line)),
    }
}

/// What comes next after the word of a header on this line, and the counts at the last one.
fn add_header_word(
    told: &mut Told,
    alloc: Global,
    heading: Heading,
    line: u32,
    word: &[u8],
) -> Stage
    ensures stage { result ≡ header_stage heading line word.now }
    ensures tells { tells told.new ≡ header_tells heading (tells told.old) word.now }
{
    match heading {
        Heading::Kind => if_right(word == b"p".as_slice(), Heading::Form, line),
        Heading::Form => if_right(word == b"cnf".as_slice(), Heading::Variables, line),
        Heading::Variables => match number_in(word) {
            Some(variables) => Stage::Header(Heading::Clauses(variables)),
            None => Stage::Wrong(line),
        },
        Heading::Clauses(variables) => match number_in(word) {
            Some(clauses) => {
                *told = Told::new(alloc, Counts { variables, clauses });
                Stage::Header(Heading::Ended)
            }
            None => Stage::Wrong(line),
        },
        Heading::Ended => Stage::Wrong(line),
    }
}

/// What comes next in a header after a word that is right or not.
fn if_right(is_right: bool, next: Heading, line: u32) -> Stage
    ensures { result ≡ cond is_right (Stage.Header next) (Stage.Wrong line) }
{
    if is_right {
        Stage::Header(next)
    } else {
        Stage::Wrong(line)
    }
}

/// What comes next after the word behind the header, and what its number tells.
#[inline(always)]
pub(crate) fn add_number(told: &mut Told, alloc: Global, word: Word<'_>) -> Result<Stage, NoMemory>
    requires { word.number ≡ signed_number_in word.bytes.now }
    ensures { IfOk result (λ next. (words : List (List ℕ)) (later : List ℕ) →
        answer_at Stage.Numbers (tells told.old) word.entry.line (word.entry.bytes.now ∷ words) later
        ≡ answer_at next (tells told.new) word.entry.line words later) }
{
    match right_number(told.counts, told.ended, word) {
        None => Ok(Stage::Wrong(word.line)),
        Some(number) => {
            told.add(alloc, number)?;
            Ok(Stage::Numbers)
        }
    }
}

/// The number that the word means, if the word is right after so many ended clauses.
fn right_number(counts: Counts, ended: u64, word: Word<'_>) -> Option<i64>
    requires { word.number ≡ signed_number_in word.bytes.now }
    ensures value { IfSome result (λ number. signed_number_in word.entry.bytes.now ≡ Some number) }
    ensures few { IfSome result (λ number. ended < counts.clauses) }
    ensures within { IfSome result (λ number. nat_abs number ≤ counts.variables) }
    ensures right { (line : ℕ) → is_right counts (ended, (line, word.entry.bytes.now)) ≡ is_some result }
{
    match word.number {
        None => None,
        Some(number) => {
            if ended < counts.clauses && number.unsigned_abs() <= counts.variables {
                Some(number)
            } else {
                None
            }
        }
    }
}

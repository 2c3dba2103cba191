//! The reader of a text that comes in pieces.

ghost use Rattle.std.specs.Prelude.{◌≡◌, ◌+◌, ◌<◌, ◌≤◌, ◌^◌, ℕ, true, [], ◌++◌, List, IfOk, OnOk, length};
ghost use Rattle.cnf_reader.specs.CnfText.{cnf_answer};
ghost use Rattle.cnf_reader.specs.Pieces.{HasRead, IsGiven};
ghost use Rattle.cnf_reader.specs.internal.RestOfText.{HasFewLines};
ghost use Rattle.cnf_reader.specs.internal.Reading.{answer_left, numbers_answer, end_answer};
ghost use Rattle.cnf_reader.specs.internal.Places.{tells, answer_from, IsKept};

use crate::CnfError;
use crate::places::{Rest, Word, begins_with_blank, next_word, plain_word};
use crate::stages::{Heading, Stage, add_number, add_word};
use crate::told::{Counts, Told};
use base_library::NoMemory;
use clause_core::Cnf;
use refutation_check::{MOST_CLAUSES, MOST_VARIABLES};
use std::alloc::Global;
use tsl_io::TakePieces;
use tsl_text::signed_number_in;

/// How many bytes of a piece are read at once, at most.
const PART: usize = 65_536;

/// Reads a formula in the DIMACS form that comes in pieces. Between them it has what comes next, the number of the
/// line, the bytes that have to be read with those that follow, and what was told so far.
#[derive(Drop)]
pub struct CnfReader {
    alloc: Global,
    stage: Stage,
    number: u32,
    kept: Vec<u8>,
    told: Told,
}

impl CnfReader {
    /// A reader that has read nothing.
    pub fn new(alloc: Global) -> Result<CnfReader, NoMemory>
        ensures { IfOk result (λ reader. HasRead reader []) }
    {
        let counts = Counts {
            variables: 0,
            clauses: 0,
        };
        // The end of a line before the first.
        let kept = Vec::from_slice(alloc, b"\n")?;
        Ok(CnfReader {
            alloc,
            stage: Stage::Comments,
            number: 0,
            kept,
            told: Told::new(alloc, counts),
        })
    }

    /// Reads a part of a piece. It fails where memory runs out, or the lines can no longer be counted.
    fn take_part(&mut self, part: &[u8]) -> Result<(), NoMemory>
        ensures { OnOk result ((text : List ℕ) → HasRead self.old text → HasRead self.new (text ++ part.now)) }
    {
        if let Stage::Wrong(_) = self.stage {
            return Ok(());
        }
        let text = joined(self.alloc, self.kept.as_slice(), part)?;
        if !can_be_counted(self.number, text.as_slice()) {
            return Err(NoMemory);
        }
        let rest = Rest {
            stage: self.stage,
            number: self.number,
            text: text.as_slice(),
        };
        let left = read_words(self.alloc, &mut self.told, rest)?;
        self.kept = Vec::from_slice(self.alloc, left.text)?;
        self.stage = left.stage;
        self.number = left.number;
        Ok(())
    }

    /// What the text is that was read.
    pub fn finish(self) -> Result<Cnf, CnfError>
        ensures { (text : List ℕ) → HasRead self text → IsGiven (cnf_answer text) result }
    {
        let CnfReader {
            alloc,
            stage,
            number,
            kept,
            mut told,
        } = self;
        // So far the lines can be counted, and those of the end as well.
        if number > u32::MAX - 2 {
            return Err(CnfError::NoMemory);
        }
        let (stage, number) = text_end(alloc, &mut told, stage, number, kept.as_slice())?;
        answer_of(told, stage, number)
    }
}

impl TakePieces for CnfReader {
    ghost use Rattle.std.specs.Prelude.{List, ℕ, ◌++◌, OnOk};
    ghost use Rattle.cnf_reader.specs.Pieces.{HasRead};

    ghost has_taken = { HasRead };

    /// Reads the next piece. It fails where memory runs out, or the lines can no longer be counted.
    fn take_piece(&mut self, piece: &[u8]) -> Result<(), NoMemory>
        ensures { OnOk result ((text : List ℕ) → HasRead self.old text → HasRead self.new (text ++ piece.now)) }
    {
        let mut done = 0;
        while done < piece.len() {
            let end = piece.len().min(done + PART);
            self.take_part(&piece[done..end])?;
            done = end;
        }
        Ok(())
    }
}

/// What was kept, and the part after it.
fn joined(alloc: Global, kept: &[u8], part: &[u8]) -> Result<Vec<u8>, NoMemory>
    ensures { IfOk result (λ text. text.items ≡ kept.now ++ part.now) }
{
    let mut text = Vec::new(alloc);
    text.extend_from_slice(kept)?;
    text.extend_from_slice(part)?;
    Ok(text)
}

/// Whether the lines can be counted, the first of which has this number.
fn can_be_counted(number: u32, text: &[u8]) -> bool
    ensures { result ≡ true → HasFewLines number text.now }
{
    text.len() <= (u32::MAX - number) as usize
}

/// Reads the words from this place on, and answers the place where no whole word is left.
fn read_words<'a>(alloc: Global, told: &mut Told, rest: Rest<'a>) -> Result<Rest<'a>, NoMemory>
    requires { HasFewLines rest.number rest.text.now }
    ensures answer { IfOk result (λ left. (more : List ℕ) →
        answer_from rest.entry (tells told.old) more ≡ answer_from left (tells told.new) more) }
    ensures kept { IfOk result (λ left. IsKept left.text.now) }
{
    let mut rest = rest;
    loop {
        let behind = read_plain(alloc, told, rest)?;
        match next_word(behind) {
            Err(left) => return Ok(left),
            Ok((word, later)) => {
                let stage = add_word(told, alloc, later.stage, word)?;
                rest = Rest { stage, ..later };
            }
        }
    }
}

/// Reads the numbers from this place on that stand behind one blank each, and answers the place after them. That is a
/// quick way through most of a text, which may stop anywhere.
fn read_plain<'a>(alloc: Global, told: &mut Told, rest: Rest<'a>) -> Result<Rest<'a>, NoMemory>
    requires { HasFewLines rest.number rest.text.now }
    ensures answer { IfOk result (λ left. (more : List ℕ) →
        answer_from rest.entry (tells told.old) more ≡ answer_from left (tells told.new) more) }
    ensures few { IfOk result (λ left. HasFewLines left.number left.text.now) }
    ensures within { IfOk result (λ left. length left.text.now ≤ length rest.entry.text.now) }
{
    let Stage::Numbers = rest.stage else {
        return Ok(rest);
    };
    let mut place = Rest {
        stage: Stage::Numbers,
        ..rest
    };
    while let Some((word, later)) = plain_word(place) {
        match add_number(told, alloc, word)? {
            Stage::Numbers => {
                place = Rest {
                    stage: Stage::Numbers,
                    ..later
                };
            }
            stage => return Ok(Rest { stage, ..later }),
        }
    }
    Ok(place)
}

/// What comes next at the end of the text, after the last word, and the number of the last line.
fn text_end(
    alloc: Global,
    told: &mut Told,
    stage: Stage,
    number: u32,
    kept: &[u8],
) -> Result<(Stage, u32), NoMemory>
    requires { number + 2 < 2 ^ 32 }
    ensures answer { IfOk result (λ end. IsKept kept.now →
        answer_left stage (tells told.old) number kept.now ≡ answer_left end.0 (tells told.new) end.1 []) }
    ensures few { IfOk result (λ end. end.1 + 1 < 2 ^ 32) }
{
    if begins_with_blank(kept) {
        return if kept.len() == 1 {
            Ok((stage, number))
        } else {
            Ok((stage.at_comment(number), number + 1))
        };
    }
    if kept.is_empty() {
        return Ok((stage, number));
    }
    let word = Word {
        line: number,
        bytes: kept,
        number: signed_number_in(kept),
    };
    Ok((add_word(told, alloc, stage, word)?, number))
}

/// What a text is that ends where this comes next, in the line of this number.
fn answer_of(told: Told, stage: Stage, number: u32) -> Result<Cnf, CnfError>
    requires { number + 1 < 2 ^ 32 }
    ensures { IsGiven (end_answer stage (tells told) number) result }
{
    match stage {
        Stage::Comments => Err(CnfError::Form(number + 1)),
        Stage::Header(Heading::Ended) => formula(told, number + 1),
        Stage::Header(_) => Err(CnfError::Form(number)),
        Stage::Numbers => formula(told, number + 1),
        Stage::Wrong(line) => Err(CnfError::Form(line)),
    }
}

/// The formula that was told, where this is the line after the last.
fn formula(told: Told, after: u32) -> Result<Cnf, CnfError>
    ensures { IsGiven (numbers_answer after (tells told) []) result }
{
    let counts = told.counts;
    if told.ended < counts.clauses {
        Err(CnfError::Form(after))
    } else if counts.variables > MOST_VARIABLES {
        Err(CnfError::Variables)
    } else if counts.clauses > MOST_CLAUSES {
        Err(CnfError::Clauses)
    } else {
        Ok(Cnf {
            variables: counts.variables as u32,
            clauses: told.clauses,
        })
    }
}

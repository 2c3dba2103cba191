//! Generated specifications.
//!
//! `gen_text` gives the specification of a number, in which so many requests are answered one by one through one
//! output, and `summary_text` what is said of the search for its program: at Ok exactly the bytes that the definitions
//! of the same names give. `generated_texts_are_spelled` is the law that these texts spell specifications.
#![tactic(auto)]

ghost use Rattle.std.specs.Prelude.{◌≡◌, ◌++◌, ◌≤◌, ℕ, length, IfOk, OnOk, codes, decimal};
ghost use Rattle.tsl_terms.specs.SpecTree.{SpecTree};
ghost use Rattle.tsl_reader.specs.Spells.{Spells};
ghost use Rattle.generator.specs.Generated.{generated_text, outcome_line, response_line, summary_text};

use base_library::NoMemory;
use std::alloc::Global;
use tsl_text::{put_bytes, put_number};

/// The text of the specification of this number: the response to each of so many requests.
pub fn gen_text(alloc: Global, n: u32) -> Result<Vec<u8>, NoMemory>
    ensures { IfOk result (λ text. text.items ≡ generated_text n) }
{
    let mut out = Vec::new(alloc);
    put_bytes(&mut out, b"always guarantee {\n")?;
    for i in 0..n {
        put_response(&mut out, i)?;
    }
    put_bytes(&mut out, b"}\n")?;
    Ok(out)
}

/// Appends the line of one response.
fn put_response(out: &mut Vec<u8>, i: u32) -> Result<(), NoMemory>
    ensures { OnOk result (out.new.items ≡ out.old.items ++ response_line i) }
{
    put_bytes(out, b"req r")?;
    put_number(out, u64::from(i))?;
    put_bytes(out, b" -> F [g <- pick r")?;
    put_number(out, u64::from(i))?;
    put_bytes(out, b"];\n")
}

/// The text that says of the specification of this number how many predicate terms and updates it has, and whether a
/// program was found.
pub fn summary_text(
    alloc: Global,
    n: u32,
    predicates: u64,
    updates: u64,
    has_program: bool,
) -> Result<Vec<u8>, NoMemory>
    ensures { IfOk result (λ text. text.items ≡ summary_text n predicates updates has_program) }
{
    let mut out = Vec::new(alloc);
    put_count(&mut out, b"gen ", u64::from(n))?;
    put_count(&mut out, b"predicates ", predicates)?;
    put_count(&mut out, b"updates ", updates)?;
    put_bytes(&mut out, outcome_line(has_program))?;
    Ok(out)
}

/// The line of the outcome.
fn outcome_line(has_program: bool) -> &'static [u8]
    ensures { result.now ≡ outcome_line has_program }
{
    if has_program {
        b"outcome program\n"
    } else {
        b"outcome none\n"
    }
}

/// Appends a line of a word and a number.
fn put_count(out: &mut Vec<u8>, word: &[u8], count: u64) -> Result<(), NoMemory>
    ensures { OnOk result (out.new.items ≡ out.old.items ++ (word.now ++ decimal count ++ codes "\n")) }
{
    put_bytes(out, word)?;
    put_number(out, count)?;
    put_bytes(out, b"\n")
}

/// The texts of the numbers from 1 to 5 spell specifications, and have at most 161 bytes.
pub fn generated_texts_are_spelled()
    ensures short { (n : ℕ) → 1 ≤ n → n ≤ 5 → length (generated_text n) ≤ 161 }
    ensures spelled { (n : ℕ) → 1 ≤ n → n ≤ 5 → (spec : SpecTree) × Spells (generated_text n) spec }
{}

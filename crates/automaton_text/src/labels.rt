//! The labels of edges: which bits a cube asks for.

ghost use Rattle.std.specs.Prelude.{◌≡◌, ◌≤◌, ◌<◌, ◌++◌, ◌∷◌, ◌-◌, suc, [], map, filter, flat_map, codes, decimal, IfSome, IfNone, OnOk, if◌then◌else◌};
ghost use Rattle.base_library.specs.Numbers.{numbers_from};
ghost use Rattle.ltl_formula.specs.Cubes.{has_bit};
ghost use Rattle.automaton_text.specs.HoaText.{literal_text, bits_asked, joined};

use base_library::NoMemory;
use ltl_formula::Cube;
use tsl_text::{put_bytes, put_number};

/// Whether a number has a bit.
fn has_bit(bits: u64, bit: u32) -> bool
    requires { bit < 64 }
    ensures { result ≡ has_bit bit bits }
{
    bits >> bit & 1 == 1
}

/// Appends the literals of a cube over so many bits.
pub(crate) fn put_label(out: &mut Vec<u8>, bits: u32, cube: Cube) -> Result<(), NoMemory>
    requires few_bits { bits ≤ 64 }
    ensures { OnOk result (out.new.items ≡ out.old.items
        ++ joined (map (literal_text cube.want) (bits_asked bits cube.care))) }
{
    match first_asked(cube.care, bits) {
        None => put_bytes(out, b"t"),
        Some(first) => {
            put_literal(out, cube.want, first)?;
            put_further(out, cube, first + 1, bits)
        }
    }
}

/// The first of so many bits that is asked for.
fn first_asked(care: u64, bits: u32) -> Option<u32>
    requires few_bits { bits ≤ 64 }
    ensures below { IfSome result (λ first. first < bits) }
    ensures some { IfSome result (λ first. bits_asked bits care
        ≡ first ∷ filter (λ b. has_bit b care) (numbers_from (suc first) (bits - suc first))) }
    ensures none { IfNone result (bits_asked bits care ≡ []) }
{
    for bit in 0..bits {
        if has_bit(care, bit) {
            return Some(bit);
        }
    }
    None
}

/// Appends the literals of a cube from a bit on, each after `&`.
fn put_further(out: &mut Vec<u8>, cube: Cube, from: u32, bits: u32) -> Result<(), NoMemory>
    requires few_bits { bits ≤ 64 }
    requires from { from ≤ bits }
    ensures { OnOk result (out.new.items ≡ out.old.items ++ flat_map (λ m. codes "&" ++ m)
        (map (literal_text cube.want) (filter (λ b. has_bit b cube.care) (numbers_from from (bits - from))))) }
{
    for bit in from..bits {
        put_if_asked(out, cube, bit)?;
    }
    Ok(())
}

/// Appends the literal of a bit after `&`, where it is asked for.
fn put_if_asked(out: &mut Vec<u8>, cube: Cube, bit: u32) -> Result<(), NoMemory>
    requires { bit < 64 }
    ensures { OnOk result (out.new.items ≡ out.old.items
        ++ (if has_bit bit cube.care then codes "&" ++ literal_text cube.want bit else [])) }
{
    if !has_bit(cube.care, bit) {
        return Ok(());
    }
    put_bytes(out, b"&")?;
    put_literal(out, cube.want, bit)
}

/// Appends the literal of a bit.
fn put_literal(out: &mut Vec<u8>, want: u64, bit: u32) -> Result<(), NoMemory>
    requires { bit < 64 }
    ensures { OnOk result (out.new.items ≡ out.old.items ++ literal_text want bit) }
{
    if !has_bit(want, bit) {
        put_bytes(out, b"!")?;
    }
    put_number(out, u64::from(bit))
}

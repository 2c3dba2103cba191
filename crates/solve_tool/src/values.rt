//! The text of an assignment.

ghost use Rattle.std.specs.Prelude.{◌≡◌, ◌++◌, ◌<◌, ◌≤◌, ◌^◌, codes, length, IfOk, OnOk};
ghost use Rattle.refutation_text.specs.Written.{literal_word};
ghost use Rattle.solve_tool.specs.Values.{line_break, satisfiable_text};

use base_library::NoMemory;
use clause_core::Literal;
use refutation_text::put_literal;
use std::alloc::Global;
use tsl_text::put_bytes;

/// The text of an assignment: a line that says that there is one, and lines of its literals.
pub(crate) fn satisfiable_text(alloc: Global, truths: &[bool]) -> Result<Vec<u8>, NoMemory>
    requires { length truths.now < 2 ^ 31 }
    ensures { IfOk result (λ text. text.items ≡ satisfiable_text truths.now) }
{
    let mut out = Vec::from_slice(alloc, b"s SATISFIABLE")?;
    for (place, truth) in truths.iter().enumerate() {
        put_break(&mut out, place)?;
        put_bytes(&mut out, b" ")?;
        put_literal(&mut out, Literal::of_variable(place as u32 + 1, *truth))?;
    }
    put_bytes(&mut out, b"\nv 0\n")?;
    Ok(out)
}

/// Begins a new line before each eighth literal.
fn put_break(out: &mut Vec<u8>, place: usize) -> Result<(), NoMemory>
    ensures { OnOk result (out.new.items ≡ out.old.items ++ line_break place) }
{
    if place % 8 == 0 {
        put_bytes(out, b"\nv")
    } else {
        Ok(())
    }
}

//! The names of a program text.

ghost use Rattle.std.specs.Prelude.{◌≡◌, ◌+◌, ◌<◌, ◌^◌, None, length, map, IfOk, OnOk};
ghost use Rattle.tsl_terms.specs.Name.{number_of};
ghost use Rattle.tsl_terms.specs.Clashes.{with_use, with_uses};
ghost use Rattle.flow_program.specs.Uses.{entries_of_use, names_after};
ghost use Rattle.flow_program.specs.internal.UseView.{use_view};

use crate::uses::SpelledUse;
use base_library::NoMemory;
use tsl_terms::{NameKind, Names};

/// Adds a name where there is none of its text.
fn add_name(names: &mut Names, text: &[u8], kind: NameKind, arity: u32) -> Result<(), NoMemory>
    requires { number_of names.old text.now ≡ None → length names.old + 1 < 2 ^ 32 }
    ensures { OnOk result
        (names.new ≡ with_use names.old (record { text = text.now; kind = kind; arity = arity })) }
{
    if names.find(text).is_none() {
        names.add(text, kind, arity)?;
    }
    Ok(())
}

/// Adds the names that get numbers by a use.
fn add_use(names: &mut Names, usage: &SpelledUse) -> Result<(), NoMemory>
    requires { length (with_uses names.old (entries_of_use (use_view usage.now))) < 2 ^ 32 }
    ensures { OnOk result (names.new ≡ with_uses names.old (entries_of_use (use_view usage.now))) }
{
    add_name(names, usage.usage.text, usage.usage.kind, usage.usage.arity)?;
    if usage.is_tested {
        add_name(names, b"?", NameKind::Predicate, 1)?;
    }
    Ok(())
}

/// The given names, and then those of uses.
pub(crate) fn names_after(mut names: Names, uses: &[SpelledUse]) -> Result<Names, NoMemory>
    requires { length (names_after names (map use_view uses.now)) < 2 ^ 32 }
    ensures { IfOk result (λ all. all ≡ names_after names (map use_view uses.now)) }
{
    for usage in uses {
        add_use(&mut names, usage)?;
    }
    Ok(names)
}

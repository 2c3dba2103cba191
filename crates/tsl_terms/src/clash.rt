//! Uses of names, and the first that is not like the first use of its name.

ghost use Rattle.std.specs.Prelude.{◌≡◌, ◌+◌, ◌<◌, ◌^◌, None, length, map, IfOk, OnOk, MatchOption};
ghost use Rattle.tsl_terms.specs.Name.{number_of};
ghost use Rattle.tsl_terms.specs.Clashes.{name_use, with_use, first_uses, alike_in, IsFirstClash, HasNoClash};
ghost use Rattle.tsl_terms.specs.internal.FirstUse.{differs_from};

use crate::names::{NameKind, Names, same_kind};
use base_library::NoMemory;
use std::alloc::Global;

/// A use of a name, as the name that it would be.
#[derive(Clone, Copy)]
pub struct NameUse<'a> {
    /// The bytes of the name.
    pub text: &'a [u8],
    /// What it is used as.
    pub kind: NameKind,
    /// With how many arguments.
    pub arity: u32,
}

/// In what uses of one name may differ.
#[derive(Clone, Copy)]
pub enum Quality {
    /// What the name is used as.
    Kind,
    /// With how many arguments.
    Arity,
}

/// The names of uses in the order of their first uses, each as it is used first.
pub fn first_uses(alloc: Global, uses: &[NameUse]) -> Result<Names, NoMemory>
    requires { length (first_uses (map name_use uses.now)) < 2 ^ 32 }
    ensures { IfOk result (λ names. names ≡ first_uses (map name_use uses.now)) }
{
    let mut names = Names::new(alloc);
    for usage in uses {
        add_use(&mut names, usage)?;
    }
    Ok(names)
}

/// Adds the name of a use where there is none of its text.
fn add_use(names: &mut Names, usage: &NameUse) -> Result<(), NoMemory>
    requires { number_of names.old usage.now.text.now ≡ None → length names.old + 1 < 2 ^ 32 }
    ensures { OnOk result (names.new ≡ with_use names.old (name_use usage.now)) }
{
    if names.find(usage.text).is_none() {
        names.add(usage.text, usage.kind, usage.arity)?;
    }
    Ok(())
}

/// Whether the first uses have the text of a use and are not like it.
fn differs(firsts: &Names, usage: &NameUse, quality: Quality) -> bool
    ensures { result ≡ differs_from (alike_in quality) firsts.now (name_use usage.now) }
{
    match firsts.find(usage.text) {
        None => false,
        Some(number) => match quality {
            Quality::Kind => !same_kind(firsts.kind(number), usage.kind),
            Quality::Arity => firsts.arity(number) != usage.arity,
        },
    }
}

/// The place of the first use that is not like the first use of its name, or `None` where each is like
/// it.
pub fn first_clash(firsts: &Names, uses: &[NameUse], quality: Quality) -> Option<usize>
    requires { firsts.now ≡ first_uses (map name_use uses.now) }
    ensures { MatchOption result (HasNoClash (alike_in quality) (map name_use uses.now))
        (IsFirstClash (alike_in quality) (map name_use uses.now)) }
{
    for (place, usage) in uses.iter().enumerate() {
        if differs(firsts, usage, quality) {
            return Some(place);
        }
    }
    None
}

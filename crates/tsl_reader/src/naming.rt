//! The names that get numbers by uses.

ghost use Rattle.std.specs.Prelude.{◌≡◌, map, flat_map, IfOk, OnOk, ◌++◌};
ghost use Rattle.tsl_terms.specs.Clashes.{name_use};
ghost use Rattle.tsl_reader.specs.Naming.{named_by};
ghost use Rattle.tsl_reader.specs.UseView.{read_use};

use crate::uses::ReadUse;
use base_library::NoMemory;
use std::alloc::Global;
use tsl_terms::{NameKind, NameUse};

/// The names that get numbers by uses: after each signal that is tested comes `?`.
pub(crate) fn numbered_names<'a>(
    alloc: Global,
    uses: &[ReadUse<'a>],
) -> Result<Vec<NameUse<'a>>, NoMemory>
    ensures { IfOk result (λ list.
        map name_use list.items ≡ flat_map named_by (map read_use uses.now)) }
{
    let mut list = Vec::new(alloc);
    for usage in uses {
        add_names(&mut list, usage)?;
    }
    Ok(list)
}

/// Adds the names that get numbers by a use.
fn add_names<'a>(list: &mut Vec<NameUse<'a>>, usage: &ReadUse<'a>) -> Result<(), NoMemory>
    ensures { OnOk result
        (map name_use list.new.items ≡ map name_use list.old.items
        ++ named_by (read_use usage.now)) }
{
    list.push(usage.usage)?;
    if usage.is_tested {
        list.push(NameUse {
            text: b"?",
            kind: NameKind::Predicate,
            arity: 1,
        })?;
    }
    Ok(())
}

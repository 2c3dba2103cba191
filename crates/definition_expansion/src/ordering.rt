//! Definitions in an order in which each uses only earlier ones.

ghost use Rattle.std.specs.Prelude.{◌≡◌, ◌<◌, ◌^◌, length, map, IfOk, IfErr};
ghost use Rattle.definition_expansion.specs.DefinitionView.{definition_of, AreHeads};
ghost use Rattle.definition_expansion.specs.Uses.{IsOrder};
ghost use Rattle.definition_expansion.specs.OrderView.{HasOrderFault};

use crate::definitions::ReadDefinition;
use crate::uses::uses_of_each;
use base_library::NoMemory;
use depth_first_search::first_on_cycle;
use std::alloc::Global;
use tsl_terms::Names;

/// Why there is no order.
#[derive(Drop)]
pub enum OrderFault {
    /// The definition with this number reaches itself through uses, and none before it does.
    Cycle(u32),
    /// Memory ran out.
    NoMemory,
}

impl From<NoMemory> for OrderFault {
    ghost use Rattle.definition_expansion.specs.declared.ordering.OrderFault.TheVariants.{NoMemory};

    ghost from_gives = { λ _ e. e ≡ NoMemory };

    fn from(_error: NoMemory) -> OrderFault {
        OrderFault::NoMemory
    }
}

/// The numbers of definitions, each once, in an order in which each uses only earlier ones; `Cycle` with the
/// first in the text that reaches itself through uses, where one does. The heads are the names of the
/// definitions, in order. Each use is looked at once where there is an order.
pub fn order(
    alloc: Global,
    heads: &Names,
    definitions: &[ReadDefinition],
) -> Result<Vec<u32>, OrderFault>
    requires { AreHeads heads.now definitions.now }
    ensures order { IfOk result (λ order. IsOrder (map definition_of definitions.now) order.items) }
    ensures fault { IfErr result (HasOrderFault (map definition_of definitions.now)) }
{
    let uses = uses_of_each(alloc, heads, definitions)?;
    if let Some(order) = depth_first_search::order(alloc, &uses)? {
        return Ok(order);
    }
    match first_on_cycle(alloc, &uses)? {
        Some(number) => Err(OrderFault::Cycle(number)),
        None => unreachable!(),
    }
}

//! The parameters of a definition.

ghost use Rattle.std.specs.Prelude.{◌≡◌, ◌+◌, ◌<◌, ◌≤◌, ◌^◌, ◌&&◌, ◌||◌, ℕ, List, length, map, IfOk, OnOk};
ghost use Rattle.std.specs.Str.{bytes_eq};
ghost use Rattle.name_resolution.specs.Heads.{is_name, is_among};
ghost use Rattle.name_resolution.specs.Occurrences.{is_repeated};

use crate::defined::add_name;
use base_library::NoMemory;
use std::alloc::Global;
use tsl_terms::{NameKind, Names};

/// The parameters of a definition: each once, and those that stand more than once.
#[derive(Drop)]
pub(crate) struct Parameters {
    pub(crate) names: Names,
    pub(crate) repeated: Names,
}

/// Adds a parameter to those before it.
fn add_parameter(names: &mut Names, repeated: &mut Names, parameter: &[u8]) -> Result<(), NoMemory>
    requires names { length names.old + 1 < 2 ^ 32 }
    requires repeated { length repeated.old + 1 < 2 ^ 32 }
    ensures names { OnOk result ((x : List ℕ) → is_name names.new x
        ≡ (is_name names.old x || bytes_eq x parameter.now)) }
    ensures repeated { OnOk result ((x : List ℕ) → is_name repeated.new x
        ≡ (is_name repeated.old x || (bytes_eq x parameter.now && is_name names.old x))) }
    ensures few_names { OnOk result (length names.new ≤ length names.old + 1) }
    ensures few_repeated { OnOk result (length repeated.new ≤ length repeated.old + 1) }
{
    if names.find(parameter).is_some() {
        add_name(repeated, parameter, NameKind::Signal, 0)
    } else {
        add_name(names, parameter, NameKind::Signal, 0)
    }
}

/// The parameters of a definition.
pub(crate) fn parameters_of(alloc: Global, parameters: &[&[u8]]) -> Result<Parameters, NoMemory>
    requires { length parameters.now < 2 ^ 32 }
    ensures names { IfOk result (λ found. (x : List ℕ) → is_name found.names x
        ≡ is_among (map (λ p. p.now) parameters.now) x) }
    ensures repeated { IfOk result (λ found. (x : List ℕ) → is_name found.repeated x
        ≡ is_repeated (map (λ p. p.now) parameters.now) x) }
{
    let mut names = Names::new(alloc);
    let mut repeated = Names::new(alloc);
    for parameter in parameters {
        add_parameter(&mut names, &mut repeated, parameter)?;
    }
    Ok(Parameters { names, repeated })
}

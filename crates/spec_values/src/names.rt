//! Names.

ghost use Rattle.std.specs.Prelude.{◌≡◌, ◌∷◌, [], codes, IfOk};

use base_library::NoMemory;
use std::alloc::Global;
use std::test::Fail;
use tsl_terms::{NameKind, Names};

/// The signals 0 `y` and 1 `x`, and the predicate 2 `p` of one argument.
pub fn names_of_copies(alloc: Global) -> Result<Names, NoMemory>
    ensures { IfOk result (λ names. names
        ≡ (record { text = codes "y"; kind = NameKind.Signal; arity = 0 })
        ∷ (record { text = codes "x"; kind = NameKind.Signal; arity = 0 })
        ∷ (record { text = codes "p"; kind = NameKind.Predicate; arity = 1 }) ∷ []) }
{
    let mut names = Names::new(alloc);
    names.add(b"y", NameKind::Signal, 0)?;
    names.add(b"x", NameKind::Signal, 0)?;
    names.add(b"p", NameKind::Predicate, 1)?;
    Ok(names)
}

/// The names, each with its kind and how many arguments it takes, as `y:Signal0 p:Predicate1 `.
pub fn names_told(alloc: Global, names: &Names) -> Result<Vec<u8>, Fail> {
    let mut told = Vec::new(alloc);
    for id in 0..names.count() {
        told.extend_from_slice(names.text(id))?;
        let kind = names.kind(id);
        let arity = names.arity(id);
        let meaning = format!(in alloc; ":{kind:?}{arity} ")?;
        told.extend_from_slice(meaning.as_bytes())?;
    }
    Ok(told)
}

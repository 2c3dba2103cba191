//! The names that an interpretation is for.

ghost use Rattle.std.specs.Prelude.{◌≡◌, ◌↔◌, ◌<◌, ◌∷◌, ◌++◌, [], ℕ, Some, IsTrue, cond, length, All, IfOk, OnOk};
ghost use Rattle.tsl_terms.specs.Equality.{is_equality};
ghost use Rattle.table_syntax.specs.Syntax.{has_table};
ghost use Rattle.entry_names.specs.Needed.{is_symbol_number, needed};

use base_library::NoMemory;
use std::alloc::Global;
use tsl_terms::{NameKind, Names, equality_of};

/// Whether entries of this kind have tables: those of functions and of predicates.
fn has_table(kind: NameKind) -> bool
    ensures { result ≡ has_table kind }
{
    match kind {
        NameKind::Signal => false,
        NameKind::Function | NameKind::Predicate => true,
    }
}

/// Adds a number at the end where it is wanted.
fn push_if(all: &mut Vec<u32>, number: u32, wanted: bool) -> Result<(), NoMemory>
    ensures { OnOk result (all.new.items ≡ all.old.items ++ cond wanted (number ∷ []) []) }
{
    if wanted {
        all.push(number)?;
    }
    Ok(())
}

/// Whether the name with this number is equality, where that has the number `equality`.
fn is_equality(names: &Names, equality: Option<u32>, id: u32) -> bool
    requires { (n : ℕ) → (equality ≡ Some n) ↔ IsTrue (is_equality names.now n) }
    ensures { result ≡ is_equality names.now id }
{
    match equality {
        Some(number) => number == id,
        None => false,
    }
}

/// Whether the name with this number is a function, or a predicate other than equality, where that has the
/// number `equality`. It takes no memory.
pub fn is_symbol_number(names: &Names, equality: Option<u32>, id: u32) -> bool
    requires within { id < length names.now }
    requires equality { (n : ℕ) → (equality ≡ Some n) ↔ IsTrue (is_equality names.now n) }
    ensures { result ≡ is_symbol_number names.now id }
{
    has_table(names.kind(id)) && !is_equality(names, equality, id)
}

/// The names that an interpretation is for: the functions and the predicates other than equality by their numbers,
/// and then the cells.
pub fn needed(alloc: Global, names: &Names, cells: &[u32]) -> Result<Vec<u32>, NoMemory>
    requires { All (λ s. s < length names.now) cells.now }
    ensures all { IfOk result (λ all. all.items ≡ needed names.now cells.now) }
    ensures within { IfOk result (λ all. All (λ id. id < length names.now) all.items) }
{
    let equality = equality_of(names);
    let mut all = Vec::new(alloc);
    for id in 0..names.count() {
        push_if(&mut all, id, is_symbol_number(names, equality, id))?;
    }
    all.extend_from_slice(cells)?;
    Ok(all)
}

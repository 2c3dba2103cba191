//! Sets of numbers, as rising lists.

ghost use Rattle.std.specs.Prelude.{◌≡◌, ◌↔◌, nat_lt, slice_get, Some, IsTrue, OnOk, IfOk};
ghost use Rattle.std.specs.List.{prefix_len};
ghost use Rattle.std.specs.Ordering.{nat_cmp};
ghost use Rattle.ltl_formula.specs.Increasing.{with_member, union};

use base_library::NoMemory;
use std::alloc::Global;

/// How many of the numbers stand before a member.
fn place_of(set: &[u32], member: u32) -> usize
    ensures { result ≡ prefix_len (λ other. nat_lt other member) set.now }
{
    set.iter().take_while(|other| **other < member).count()
}

/// Whether a member stands at a place.
fn is_at(set: &[u32], place: usize, member: u32) -> bool
    ensures { IsTrue result ↔ (slice_get set.now place ≡ Some member) }
{
    match set.get(place) {
        Some(found) => *found == member,
        None => false,
    }
}

/// Puts a number in its place among rising numbers, unless it is there.
fn insert_member(set: &mut Vec<u32>, member: u32) -> Result<(), NoMemory>
    ensures { OnOk result (set.new.items ≡ with_member nat_cmp member set.old.items) }
{
    let place = place_of(set, member);
    if is_at(set, place, member) {
        return Ok(());
    }
    set.insert(place, member)?;
    Ok(())
}

/// The numbers of two sets.
pub(crate) fn union_of(alloc: Global, left: &[u32], right: &[u32]) -> Result<Vec<u32>, NoMemory>
    ensures { IfOk result (λ both. both.items ≡ union nat_cmp left.now right.now) }
{
    let mut both = Vec::with_capacity(alloc, left.len().saturating_add(right.len()))?;
    both.extend_from_slice(left)?;
    for member in right {
        insert_member(&mut both, *member)?;
    }
    Ok(both)
}

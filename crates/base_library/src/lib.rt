//! One list type for the fields of public types.
//!
//! A contract sees a `Sequence` as the list of its members, so a clause on a type that holds one
//! speaks of members alone, and never of capacities or addresses. Parameters and answers of calls
//! stay plain `Vec`s: a `Sequence` is made from one and gives it back, both without taking memory.
#![tactic(auto)]

ghost use Rattle.std.specs.Prelude.{◌≡◌, ◌∷◌, ◌++◌, ◌↔◌, [], length, List, IsTrue, OnOk, OnErr};

use std::alloc::Global;
use std::marker::Model;

/// Want of memory: std's `AllocError` under the name that this repository's calls give it.
///
/// A call whose error is `NoMemory`, or has a variant of that name, answers it where memory ran out. Its contract says
/// what holds at `Ok`; what it was lent may have changed at that error, unless its comment or its contract says
/// otherwise. So no other comment says again that an `Err` may mean that memory ran out.
pub use std::alloc::AllocError as NoMemory;

/// A list of members, in order. A clause sees it as that list.
#[derive(Debug, Drop)]
pub struct Sequence<T> {
    items: Vec<T>,
}

impl<T> Model for Sequence<T> {
    ghost Value = { List T };

    ghost view = { λ sequence. sequence.items.items };
}

impl<T> Sequence<T> {
    /// The empty list. It takes no memory until a member is added.
    pub fn new(alloc: Global) -> Sequence<T>
        ensures { result ≡ [] }
    {
        Sequence {
            items: Vec::new(alloc),
        }
    }

    /// The members of a vector, in its order. It takes no memory.
    pub fn from_vec(items: Vec<T>) -> Sequence<T>
        ensures { result ≡ items.items }
    {
        Sequence { items }
    }

    /// The vector of the members. It takes no memory.
    pub fn into_vec(self) -> Vec<T>
        ensures { result.items ≡ self }
    {
        let Sequence { items } = self;
        items
    }

    /// The members as a slice.
    pub fn as_slice(&self) -> &[T]
        ensures { result.now ≡ self.now }
    {
        self.items.as_slice()
    }

    /// How many members there are.
    pub fn len(&self) -> usize
        ensures { result ≡ length self.now }
    {
        self.items.len()
    }

    /// Whether there is no member.
    pub fn is_empty(&self) -> bool
        ensures { IsTrue result ↔ (self.now ≡ []) }
    {
        self.items.is_empty()
    }

    /// Adds a member at the end. An `Err` says that memory ran out, and then the list is unchanged.
    pub fn push(&mut self, member: T) -> Result<(), NoMemory>
    where
        T: Drop,
        ensures ok { OnOk result (self.new ≡ self.old ++ member ∷ []) }
        ensures err { OnErr result (self.new ≡ self.old) }
    {
        self.items.push(member)?;
        Ok(())
    }
}

#[cfg(test)]
mod tests {
    use super::*;
    use std::test::Fail;

    #[test]
    fn a_vector_goes_in_and_comes_out_with_what_was_added(rt: HostRuntime) -> Result<(), Fail> {
        let mut sequence = Sequence::from_vec(vec![in rt.alloc(); 1, 2]?);
        assert_eq!(rt; sequence.is_empty(), false);
        sequence.push(3)?;
        assert_eq!(rt; sequence.len(), 3);
        assert_eq!(rt; sequence.as_slice(), [1, 2, 3].as_slice());
        let items = sequence.into_vec();
        assert_eq!(rt; items.as_slice(), [1, 2, 3].as_slice());
        assert_eq!(rt; Sequence::<u8>::new(rt.alloc()).is_empty(), true);
        Ok(())
    }
}

//! What symbols mean over values of a type.

ghost use Rattle.std.specs.Prelude.{◌≡◌, ◌↔◌, ℕ, [], ◌∷◌, Option, Some, IsSome, IsTrue, IfOk, map};
ghost use Rattle.tsl_terms.specs.Value.{Meanings};

use base_library::NoMemory;
use std::alloc::Global;

/// Values, and what functions and cells mean over them.
pub trait Algebra {
    /// A value. It may own memory.
    type Value: Drop;

    /// What is seen of a value: two values are the same where this is equal.
    ghost Seen: { Type 0 };

    ghost seen: { Self.Value → Seen };

    /// What each symbol means over what is seen.
    ghost meanings: { Self → Meanings Seen };

    /// The value of a function on these arguments.
    fn apply(
        &self,
        alloc: Global,
        function: u32,
        arguments: &[Self::Value],
    ) -> Result<Self::Value, NoMemory>
        requires had { IsSome ((meanings self.now).function function (map seen arguments.now)) }
        ensures { IfOk result (λ v. (meanings self.now).function function (map seen arguments.now) ≡ Some (seen v)) };

    /// The value that a cell has at first.
    fn initial(&self, alloc: Global, cell: u32) -> Result<Self::Value, NoMemory>
        requires had { IsSome ((meanings self.now).initial cell) }
        ensures { IfOk result (λ v. (meanings self.now).initial cell ≡ Some (seen v)) };

    /// The same value once more.
    fn copy(&self, alloc: Global, value: &Self::Value) -> Result<Self::Value, NoMemory>
        ensures { IfOk result (λ v. seen v ≡ seen value.now) };

    /// Whether two values are the same. It takes no memory.
    fn same(&self, a: &Self::Value, b: &Self::Value) -> bool
        ensures { IsTrue result ↔ (seen a.now ≡ seen b.now) };
}

/// An algebra that also says where predicates hold, and which of them is equality.
pub trait Judge: Algebra {
    /// The number of the predicate that is equality, where there is one.
    ghost equality_number: { Self → Option ℕ };

    /// The predicate that is equality, by its number; `None` exactly where there is none. It takes no memory.
    fn equality(&self) -> Option<u32>
        ensures { result ≡ equality_number self.now };

    /// Whether a predicate holds of these arguments. Equality holds of two arguments exactly where they are the same.
    /// It takes no memory.
    fn test(&self, predicate: u32, arguments: &[Self::Value]) -> bool
        requires had { IsSome ((Self.meanings self.now).predicate predicate (map Self.seen arguments.now)) }
        ensures value { (Self.meanings self.now).predicate predicate (map Self.seen arguments.now) ≡ Some result }
        ensures equal { (a b : Self.Seen) → equality_number self.now ≡ Some predicate → map Self.seen arguments.now ≡ a ∷ b ∷ [] →
            IsTrue result ↔ (a ≡ b) };
}

//! What takes a text piece by piece.
ghost use Rattle.std.specs.Prelude.{◌≡◌, ℕ, ◌++◌, List, OnOk};

use std::alloc::AllocError;

/// What takes a text piece by piece.
pub trait TakePieces {
    /// The text that was taken so far is this one.
    ghost has_taken: { Self → List ℕ → Type 0 };

    /// Takes the next piece of the text.
    fn take_piece(&mut self, piece: &[u8]) -> Result<(), AllocError>
        ensures { OnOk result ((text : List ℕ) → has_taken self.old text → has_taken self.new (text ++ piece.now)) };
}

/// Keeps the text.
impl TakePieces for Vec<u8> {
    ghost has_taken = { λ kept text. kept.items ≡ text };

    fn take_piece(&mut self, piece: &[u8]) -> Result<(), AllocError>
        ensures { OnOk result ((text : List ℕ) → self.old.items ≡ text → self.new.items ≡ text ++ piece.now) }
    {
        self.extend_from_slice(piece)
    }
}

//! The header of a text, line by line.

ghost use Rattle.std.specs.Prelude.{◌≡◌, option_map, slice_get};
ghost use Rattle.automaton_text.specs.HoaLines.{header};
ghost use Rattle.automaton_text.specs.HoaView.{head_tree};

/// What a line of the header says.
#[derive(Clone, Copy)]
pub enum Head {
    /// These very words.
    Says(&'static [u8]),
    /// How many states there are.
    Counts,
    /// What the bits are called.
    Lists,
}

/// The line of the header after so many.
pub(crate) fn head_after(passed: u32) -> Option<Head>
    ensures { option_map head_tree result ≡ slice_get header passed }
{
    match passed {
        0 => Some(Head::Says(b"HOA: v1")),
        1 => Some(Head::Counts),
        2 => Some(Head::Says(b"Start: 0")),
        3 => Some(Head::Lists),
        4 => Some(Head::Says(b"acc-name: Buchi")),
        5 => Some(Head::Says(b"Acceptance: 1 Inf(0)")),
        6 => Some(Head::Says(b"--BODY--")),
        _ => None,
    }
}

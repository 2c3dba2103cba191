//! Rows of an input loop.

ghost use Rattle.std.specs.Prelude.{◌≡◌, ◌^◌, ◌<◌, ◌++◌, Some, length, slice_get};
ghost use Rattle.tsl_meaning.specs.Run.{place_after};
ghost use Rattle.tsl_meaning.specs.Interpretation.{rows_of};

use tsl_meaning::InputLoop;

/// The row at a place, those of the stem first.
pub(crate) fn row_at<V>(inputs: &InputLoop<V>, place: u32) -> &[V]
    requires { place < length (inputs.now.stem ++ inputs.now.cycle) }
    ensures { slice_get (inputs.now.stem ++ inputs.now.cycle) place ≡ Some result.now }
{
    let place = place as usize;
    let stem = inputs.stem.len();
    if place < stem {
        inputs.stem.as_slice()[place].as_slice()
    } else {
        inputs.cycle.as_slice()[place - stem].as_slice()
    }
}

/// The place after a place.
pub(crate) fn next_place<V>(inputs: &InputLoop<V>, place: u32) -> u32
    requires within { place < length (inputs.now.stem ++ inputs.now.cycle) }
    requires few { length (inputs.now.stem ++ inputs.now.cycle) < 2 ^ 32 }
    ensures { result ≡ place_after (rows_of inputs.now) place }
{
    let stem = inputs.stem.len();
    let next = place as usize + 1;
    if next == stem + inputs.cycle.len() {
        stem as u32
    } else {
        next as u32
    }
}

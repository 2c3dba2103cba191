//! The counts of a header.

ghost use Rattle.std.specs.Prelude.{◌+◌, ◌<◌, ◌^◌};

/// How many of each the header tells.
#[derive(Clone, Copy)]
pub struct Counts {
    /// The inputs.
    pub inputs: u32,
    /// The latches.
    pub latches: u32,
    /// The outputs.
    pub outputs: u32,
    /// The gates.
    pub gates: u32,
    ghost few: { inputs + latches + gates < 2 ^ 31 },
}

//! Cubes: what is asked of a letter.

ghost use Rattle.std.specs.Prelude.{◌≡◌};
ghost use Rattle.ltl_formula.specs.Cubes.{cube_matches, IsWithin};

/// A conjunction of literals: bits of a letter that are to be set, and bits that are not.
#[derive(Debug, Clone, Copy, PartialEq, Eq, Hash)]
pub struct Cube {
    /// The bits that it asks for.
    pub care: u64,
    /// Those of them that are to be set.
    pub want: u64,
    pub ghost within: { IsWithin care want },
}

impl Cube {
    /// Whether a letter has the bits that the cube asks for as it wants them.
    pub fn matches(&self, letter: u64) -> bool
        ensures { result ≡ cube_matches self.now.care self.now.want letter }
    {
        letter & self.care == self.want
    }
}

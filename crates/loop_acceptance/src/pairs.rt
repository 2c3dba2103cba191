//! Nodes as pairs of a position of a letter loop and a state of an automaton.

ghost use Rattle.std.specs.Prelude.{◌≡◌, ◌/◌, ◌%◌, ◌^◌, ◌≤◌};

/// A pair of a position and a state.
#[derive(Clone, Copy)]
pub(crate) struct Pair {
    /// The position.
    pub position: usize,
    /// The state.
    pub state: usize,
}

/// How nodes are pairs where there are so many states: the number of a node is the position times the
/// number of states, and the state. Each step asks several times which pair a node is, so that takes a
/// multiplication in place of a division, which takes a processor several times as long.
#[derive(Clone, Copy)]
pub(crate) struct Pairing {
    /// How many states there are.
    pub states: usize,
    /// How often that number goes into 2 to the power of 32.
    factor: usize,
    pub ghost some: { 1 ≤ states },
    pub ghost goes_in: { factor ≡ 2 ^ 32 / states },
}

impl Pairing {
    /// That of so many states.
    pub fn new(states: usize) -> Pairing
        requires { 1 ≤ states }
        ensures { result.states ≡ states }
    {
        Pairing {
            states,
            factor: (1 << 32) / states,
        }
    }

    /// The pair that a node is. The product with the factor gives its position, or the one before it.
    #[inline(always)]
    pub fn pair_of(self, node: u32) -> Pair
        ensures position { result.position ≡ node / self.states }
        ensures state { result.state ≡ node % self.states }
    {
        let position = (node as usize * self.factor) >> 32;
        let state = node as usize - position * self.states;
        if state < self.states {
            return Pair { position, state };
        }
        Pair {
            position: position + 1,
            state: state - self.states,
        }
    }
}

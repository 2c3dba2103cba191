//! Values of signals.

ghost use Rattle.std.specs.Prelude.{◌≡◌, ◌==◌, length};
ghost use Rattle.std.specs.List.{position};
ghost use Rattle.std.specs.Option.{option_copied};
ghost use Rattle.base_library.specs.Numbers.{IsDistinct};
ghost use Rattle.tsl_terms.specs.Value.{beside};

use base_library::Sequence;

/// Signals with a value each, in one order. No signal stands twice.
#[derive(Drop)]
pub struct Leaves<V> {
    /// The signals.
    pub signals: Sequence<u32>,
    /// The value of each signal, in the order of the signals.
    pub values: Sequence<V>,
    pub ghost distinct: { IsDistinct signals },
    pub ghost paired: { length signals ≡ length values },
}

impl<V> Leaves<V> {
    /// The value that stands beside a signal, if the signal is there. It takes no memory.
    pub fn value_of(&self, signal: u32) -> Option<&V>
        ensures { option_copied result ≡ beside signal self.now.signals self.now.values }
    {
        let place = place_of(self.signals.as_slice(), signal)?;
        self.values.as_slice().get(place)
    }
}

/// The first place of a signal.
fn place_of(signals: &[u32], signal: u32) -> Option<usize>
    ensures { result ≡ position (λ s. s == signal) signals.now }
{
    signals.iter().position(|s| *s == signal)
}

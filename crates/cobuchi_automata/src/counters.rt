//! The counter of a state: the number of the until that is waited for.

ghost use Rattle.std.specs.Prelude.{◌≡◌, ◌≤◌, ◌-◌, length, nat_eq};
ghost use Rattle.std.specs.List.{list_any};
ghost use Rattle.cobuchi_automata.specs.Counters.{risen, passes_last, advanced};
ghost use Rattle.cobuchi_automata.specs.internal.Exploring.{is_put_off};

/// Whether a number stands among others.
fn stands_among(numbers: &[u32], number: u32) -> bool
    ensures { result ≡ list_any (λ other. nat_eq number other) numbers.now }
{
    numbers.iter().any(|other| number == *other)
}

/// Whether the until at a place is among those that are put off.
fn is_put_off(untils: &[u32], postponed: &[u32], place: usize) -> bool
    ensures { result ≡ is_put_off untils.now postponed.now place }
{
    match untils.get(place) {
        Some(until) => stands_among(postponed, *until),
        None => false,
    }
}

/// How far a counter rises: past each until that is not put off.
fn risen(untils: &[u32], postponed: &[u32], counter: usize) -> usize
    requires { counter ≤ length untils.now }
    ensures risen { result ≡ risen (is_put_off untils.now postponed.now) (length untils.now - counter) counter }
    ensures within { result ≤ length untils.now }
{
    let mut risen = counter;
    while risen < untils.len() {
        if is_put_off(untils, postponed, risen) {
            return risen;
        }
        risen += 1;
    }
    risen
}

/// The counter of the next state, and whether it passes the last until.
pub(crate) fn advanced(untils: &[u32], postponed: &[u32], counter: usize) -> (usize, bool)
    requires { counter ≤ length untils.now }
    ensures counter { result.0 ≡ advanced (length untils.now) (is_put_off untils.now postponed.now) counter }
    ensures passes { result.1 ≡ passes_last (length untils.now) (is_put_off untils.now postponed.now) counter }
{
    let risen = risen(untils, postponed, counter);
    if risen == untils.len() {
        (0, true)
    } else {
        (risen, false)
    }
}

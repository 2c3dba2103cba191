//! Whether numbers stand in a list, and where.

ghost use Rattle.std.specs.Prelude.{◌≡◌, ◌<◌, length, slice_get, Some, All, IfOk, IfErr};
ghost use Rattle.entry_names.specs.Needed.{HasNoRepeat};
ghost use Rattle.entry_names.specs.Places.{AreMarksOf, ArePlaces, IsRepeatFault};

use base_library::NoMemory;
use std::alloc::Global;

/// For each of so many numbers whether it is among these.
pub(crate) fn marks(alloc: Global, count: u32, numbers: &[u32]) -> Result<Vec<bool>, NoMemory>
    requires { All (λ n. n < count) numbers.now }
    ensures { IfOk result (λ marks. AreMarksOf count numbers.now marks.items) }
{
    let mut marks = vec![in alloc; false; count as usize]?;
    for number in numbers {
        marks[*number as usize] = true;
    }
    Ok(marks)
}

/// The place of the first number that stands at an earlier place too, or out of memory.
#[derive(Drop)]
pub(crate) enum RepeatFault {
    /// The number at this place stands at an earlier one too, and none before it does.
    Repeat(usize),
    /// Memory ran out.
    NoMemory,
}

impl From<NoMemory> for RepeatFault {
    ghost use Rattle.entry_names.specs.declared.numbering.RepeatFault.TheVariants.{NoMemory};

    ghost from_gives = { λ _ e. e ≡ NoMemory };

    fn from(_error: NoMemory) -> RepeatFault {
        RepeatFault::NoMemory
    }
}

/// The place of a number, where it stands somewhere.
pub fn place_of(places: &[Option<usize>], number: u32) -> Option<usize>
    requires { number < length places.now }
    ensures { slice_get places.now number ≡ Some result }
{
    places[number as usize]
}

/// For each of so many numbers the place where it stands. An `Err` tells the first place with a number that stands at
/// an earlier one too.
pub(crate) fn places(
    alloc: Global,
    count: u32,
    numbers: &[u32],
) -> Result<Vec<Option<usize>>, RepeatFault>
    requires { All (λ n. n < count) numbers.now }
    ensures ok { IfOk result (λ places. ArePlaces count numbers.now places.items) }
    ensures once { IfOk result (λ places. HasNoRepeat numbers.now) }
    ensures fault { IfErr result (IsRepeatFault numbers.now) }
{
    let mut places = vec![in alloc; None; count as usize]?;
    for (place, number) in numbers.iter().enumerate() {
        match place_of(&places, *number) {
            Some(_) => return Err(RepeatFault::Repeat(place)),
            None => places[*number as usize] = Some(place),
        }
    }
    Ok(places)
}

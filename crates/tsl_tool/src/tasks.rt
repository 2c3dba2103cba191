//! What tasks read, and how far their searches go.

ghost use Rattle.std.specs.Prelude.{◌≡◌};
ghost use Rattle.tsl_tool.specs.Tasks.{bound_asked, most_bytes, search_sizes};

use command_words::{SynthBound, SynthSizes, Task};
use refinement_loop::{Bound, Search};

/// The most bytes of a specification.
const MOST_SPECIFICATION_BYTES: u32 = 1_048_576;

/// The most bytes of a specification and a program, of these with tables or machine words and with inputs,
/// or of an automaton and a loop of letters, together.
const MOST_RUN_BYTES: u32 = 16_777_216;

/// The most bytes of a formula and a log together.
const MOST_LOG_BYTES: u32 = 268_435_456;

/// The most bytes that a task reads. `None` where it reads nothing.
pub(crate) fn most_bytes(task: Task) -> Option<u32>
    ensures { result ≡ most_bytes task }
{
    match task {
        Task::Synth(_) | Task::Prove(_) | Task::Automaton => Some(MOST_SPECIFICATION_BYTES),
        Task::Check(_) | Task::Run | Task::Circuit(_) | Task::Accepts => Some(MOST_RUN_BYTES),
        Task::Recheck => Some(MOST_LOG_BYTES),
        Task::Gen(_) => None,
    }
}

/// The bound that a word names.
fn bound_asked(bound: SynthBound) -> Bound
    ensures { result ≡ bound_asked bound }
{
    match bound {
        SynthBound::Number(number) => Bound::Fixed(number),
        SynthBound::Full => Bound::Full,
    }
}

/// How far the search of `synth` goes.
pub(crate) fn search_sizes(sizes: SynthSizes) -> Search
    ensures { result ≡ search_sizes sizes }
{
    Search {
        states: sizes.states,
        bound: bound_asked(sizes.bound),
        env_states: sizes.env_states,
        env_bound: sizes.env_bound,
        depth: sizes.depth,
        rounds: sizes.rounds,
        budget: sizes.budget,
    }
}

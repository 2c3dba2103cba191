//! The words that name commands, and the arguments of each.

ghost use Rattle.std.specs.Prelude.{◌≡◌, map, string_bytes};
ghost use Rattle.std.specs.Str.{bytes_eq};
ghost use Rattle.command_words.specs.Commands.{command_arguments, command_word, word_text};
ghost use Rattle.command_words.specs.internal.Matches.{rule_for};

use crate::argument::{Argument, Values};

/// A word that names a command.
#[derive(Clone, Copy, Debug, PartialEq, Eq)]
pub enum CommandWord {
    /// `synth`
    Synth,
    /// `check`
    Check,
    /// `run`
    Run,
    /// `prove`
    Prove,
    /// `recheck`
    Recheck,
    /// `gen`
    Gen,
    /// `circuit`
    Circuit,
    /// `automaton`
    Automaton,
    /// `accepts`
    Accepts,
}

const STATES: Argument = Argument {
    name: "states",
    values: Values::Numbers { least: 1, most: 8 },
    default: Some("2"),
};

const BOUND: Argument = Argument {
    name: "bound",
    values: Values::Numbers { least: 0, most: 15 },
    default: Some("2"),
};

/// The bound of `synth`, which may be the full one.
const SYNTH_BOUND: Argument = Argument {
    name: "bound",
    values: Values::Words,
    default: Some("2"),
};

const ENV_STATES: Argument = Argument {
    name: "env-states",
    values: Values::Numbers { least: 1, most: 8 },
    default: Some("2"),
};

const ENV_BOUND: Argument = Argument {
    name: "env-bound",
    values: Values::Numbers { least: 0, most: 15 },
    default: Some("2"),
};

const DEPTH: Argument = Argument {
    name: "depth",
    values: Values::Numbers { least: 1, most: 3 },
    default: Some("2"),
};

const ROUNDS: Argument = Argument {
    name: "rounds",
    values: Values::Numbers { least: 0, most: 64 },
    default: Some("8"),
};

const BUDGET: Argument = Argument {
    name: "budget",
    values: Values::Numbers {
        least: 1,
        most: 1_000_000,
    },
    default: Some("20000"),
};

const NUMBER: Argument = Argument {
    name: "n",
    values: Values::Numbers { least: 1, most: 5 },
    default: None,
};

static OF_SYNTH: [Argument; 7] = [
    STATES,
    SYNTH_BOUND,
    ENV_STATES,
    ENV_BOUND,
    DEPTH,
    ROUNDS,
    BUDGET,
];

/// Those of `check`, which `circuit` has too.
static OF_CHECK: [Argument; 1] = [BOUND];

static OF_PROVE: [Argument; 3] = [STATES, BOUND, BUDGET];

static OF_GEN: [Argument; 1] = [NUMBER];

static NONE: [Argument; 0] = [];

impl CommandWord {
    /// The command that a word names.
    pub(crate) fn of_word(word: &String) -> Option<CommandWord>
        ensures { result ≡ command_word (string_bytes word.now) }
    {
        if is(word, b"synth") {
            return Some(CommandWord::Synth);
        }
        if is(word, b"check") {
            return Some(CommandWord::Check);
        }
        if is(word, b"run") {
            return Some(CommandWord::Run);
        }
        if is(word, b"prove") {
            return Some(CommandWord::Prove);
        }
        if is(word, b"recheck") {
            return Some(CommandWord::Recheck);
        }
        if is(word, b"gen") {
            return Some(CommandWord::Gen);
        }
        if is(word, b"circuit") {
            return Some(CommandWord::Circuit);
        }
        if is(word, b"automaton") {
            return Some(CommandWord::Automaton);
        }
        if is(word, b"accepts") {
            return Some(CommandWord::Accepts);
        }
        None
    }

    /// The word.
    pub(crate) fn text(self) -> &'static str
        ensures { result.now ≡ word_text self }
    {
        match self {
            CommandWord::Synth => "synth",
            CommandWord::Check => "check",
            CommandWord::Run => "run",
            CommandWord::Prove => "prove",
            CommandWord::Recheck => "recheck",
            CommandWord::Gen => "gen",
            CommandWord::Circuit => "circuit",
            CommandWord::Automaton => "automaton",
            CommandWord::Accepts => "accepts",
        }
    }

    /// The arguments of the command.
    pub(crate) fn arguments(self) -> &'static [Argument]
        ensures { map rule_for result.now ≡ command_arguments self }
    {
        match self {
            CommandWord::Synth => OF_SYNTH.as_slice(),
            CommandWord::Check => OF_CHECK.as_slice(),
            CommandWord::Run => NONE.as_slice(),
            CommandWord::Prove => OF_PROVE.as_slice(),
            CommandWord::Recheck => NONE.as_slice(),
            CommandWord::Gen => OF_GEN.as_slice(),
            CommandWord::Circuit => OF_CHECK.as_slice(),
            CommandWord::Automaton => NONE.as_slice(),
            CommandWord::Accepts => NONE.as_slice(),
        }
    }
}

/// Whether a word has these bytes.
fn is(word: &String, bytes: &[u8]) -> bool
    ensures { result ≡ bytes_eq (string_bytes word.now) bytes.now }
{
    word.as_bytes() == bytes
}

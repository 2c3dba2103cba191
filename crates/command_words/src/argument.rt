//! Commands of `clap` whose arguments are whole numbers, or words that are looked up.

ghost use Rattle.std.specs.Prelude.{◌≡◌, IfOk, map, false};
ghost use Rattle.clap.specs.Words.{app_of, rule_of};
ghost use Rattle.command_words.specs.Arguments.{command_with};
ghost use Rattle.command_words.specs.internal.Matches.{parser_for, rule_for};

use base_library::NoMemory;
use clap::builder::ValueParser;
use clap::{Arg, ArgAction, Command};
use std::alloc::Global;

/// What the value of an argument may be.
#[derive(Clone, Copy)]
pub(crate) enum Values {
    /// A whole number in a range.
    Numbers {
        /// The least number that is taken.
        least: u32,
        /// The greatest number that is taken.
        most: u32,
    },
    /// Any word. The command looks it up.
    Words,
}

impl Values {
    /// The parser of `clap`.
    fn to_parser<'a>(self) -> ValueParser<'a>
        ensures { result ≡ parser_for self }
    {
        match self {
            Values::Numbers { least, most } => {
                ValueParser::Signed(i64::from(least), i64::from(most))
            }
            Values::Words => ValueParser::String,
        }
    }
}

/// An argument with one value.
#[derive(Clone, Copy)]
pub(crate) struct Argument {
    /// Its name.
    pub(crate) name: &'static str,
    /// What its value may be.
    pub(crate) values: Values,
    /// The value of an option that is not given. An argument without one is no option: it has to be given,
    /// as a word of its own.
    pub(crate) default: Option<&'static str>,
}

impl Argument {
    /// The argument of `clap`.
    pub(crate) fn to_arg<'a>(self, alloc: Global) -> Arg<'a>
        ensures rule { rule_of result ≡ rule_for self }
        ensures local { result.global ≡ false }
    {
        let arg = Arg::new(alloc, self.name)
            .action(ArgAction::Set)
            .value_parser(self.values.to_parser());
        match self.default {
            Some(text) => arg.long(self.name).default_value(text),
            None => arg.required(true),
        }
    }
}

/// The command of this name that has these arguments, and nothing else: no flag for help either.
pub(crate) fn command_of<'a>(
    alloc: Global,
    name: &'static str,
    arguments: &[Argument],
) -> Result<Command<'a>, NoMemory>
    ensures { IfOk result (λ command. app_of command ≡ command_with name.now (map rule_for arguments.now)) }
{
    let mut command = Command::new(alloc, name).disable_help_flag(true);
    for argument in arguments {
        command = command.arg(argument.to_arg(alloc))?;
    }
    Ok(command)
}

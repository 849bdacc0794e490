//! The arguments of the commands, and the commands that `clap` makes of them.
//!
//! An argument is a value here, so that the steps by which `clap` makes one are written once. What makes a command is
//! not inlined: a command of `clap` has some 700 bytes, and each step of its making takes as much of the stack for
//! itself, which a call gives back before the next one.

use clap::builder::ValueParser;
use clap::{Arg, ArgAction, Command, value_parser};
use std::alloc::{AllocError, Global};

/// An argument of a command.
#[derive(Clone, Copy)]
pub(crate) struct Argument<'a> {
    /// Its name: that of an option stands behind two dashes.
    pub(crate) name: &'a str,
    pub(crate) is_option: bool,
    /// Whether it has to be given.
    pub(crate) is_required: bool,
    /// What help calls its values, if it has a name for them.
    pub(crate) values: &'a [&'a str],
    /// What each value has to be.
    pub(crate) parser: ValueParser<'a>,
    /// What is done where it is given.
    pub(crate) action: ArgAction,
    /// Its values where it is left out.
    pub(crate) defaults: &'a [&'a str],
    /// The arguments that do not go with it.
    pub(crate) conflicts: &'a [&'a str],
    /// The arguments that it does not go without.
    pub(crate) needs: &'a [&'a str],
    pub(crate) help: &'a str,
    /// What the long help says in place of that, if it says more.
    pub(crate) long_help: Option<&'a str>,
}

impl<'a> Argument<'a> {
    /// A path, by its place, which may be left out.
    pub(crate) fn optional(name: &'a str, help: &'a str) -> Argument<'a> {
        Argument {
            name,
            is_option: false,
            is_required: false,
            values: &[],
            parser: ValueParser::String,
            action: ArgAction::Set,
            defaults: &[],
            conflicts: &[],
            needs: &[],
            help,
            long_help: None,
        }
    }

    /// A path, by its place, which has to be given.
    pub(crate) fn required(name: &'a str, help: &'a str) -> Argument<'a> {
        Argument {
            is_required: true,
            ..Argument::optional(name, help)
        }
    }

    /// The option `--NAME VALUE ..`.
    pub(crate) fn option(name: &'a str, values: &'a [&'a str], help: &'a str) -> Argument<'a> {
        Argument {
            is_option: true,
            values,
            ..Argument::optional(name, help)
        }
    }

    /// The option `--NAME N` of a number in this range, ends included.
    pub(crate) fn number(
        name: &'a str,
        values: &'a [&'a str],
        range: (u32, u32),
        help: &'a str,
    ) -> Argument<'a> {
        Argument {
            parser: value_parser!(u32).range(i64::from(range.0)..=i64::from(range.1)),
            ..Argument::option(name, values, help)
        }
    }

    /// As `number`, with a number where it is left out.
    pub(crate) fn number_or(
        name: &'a str,
        range: (u32, u32),
        defaults: &'a [&'a str],
        help: &'a str,
    ) -> Argument<'a> {
        Argument {
            defaults,
            ..Argument::number(name, &["N"], range, help)
        }
    }
}

/// The command of this name with these arguments, what it does, and what its help ends with.
#[inline(never)]
pub(crate) fn command_of<'a>(
    alloc: Global,
    name: &'a str,
    about: &'a str,
    after: &'a str,
    arguments: &[Argument<'a>],
) -> Result<Command<'a>, AllocError> {
    let mut command = described(alloc, name, about, after);
    for argument in arguments {
        command = with_argument(alloc, command, argument)?;
    }
    Ok(command)
}

/// A command of this name, what it does, and what its help ends with.
pub(crate) fn described<'a>(
    alloc: Global,
    name: &'a str,
    about: &'a str,
    after: &'a str,
) -> Command<'a> {
    Command::new(alloc, name).about(about).after_help(after)
}

/// The command with this argument, too.
#[inline(never)]
fn with_argument<'a>(
    alloc: Global,
    command: Command<'a>,
    argument: &Argument<'a>,
) -> Result<Command<'a>, AllocError> {
    match made(alloc, argument) {
        Ok(arg) => command.arg(arg),
        Err(error) => {
            drop(command);
            Err(error)
        }
    }
}

/// The argument as `clap` has it.
#[inline(never)]
fn made<'a>(alloc: Global, argument: &Argument<'a>) -> Result<Arg<'a>, AllocError> {
    shown(alloc, argument)
        .required(argument.is_required)
        .action(argument.action)
        .value_parser(argument.parser)
        .default_values(argument.defaults)
        .conflicts_with_all(argument.conflicts)?
        .requires_all(argument.needs)
}

/// What of it is shown.
fn shown<'a>(alloc: Global, argument: &Argument<'a>) -> Arg<'a> {
    let arg = Arg::new(alloc, argument.name)
        .value_names(argument.values)
        .help(argument.help);
    let arg = if argument.is_option {
        arg.long(argument.name)
    } else {
        arg
    };
    match argument.long_help {
        Some(text) => arg.long_help(text),
        None => arg,
    }
}

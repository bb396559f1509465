// What a command is told.
use clap::builder::ValueParser;
use clap::{Arg, ArgAction, Command};
use std::alloc::{AllocError, Global};

/// What a command is told, as `clap` has to know it. It is plain data, of which one function makes what `clap` keeps.
#[derive(Clone, Copy)]
pub(crate) struct Argument<'a> {
    name: &'a str,
    help: &'a str,
    // None where its place tells it, and not its name.
    action: Option<ArgAction>,
    is_required: bool,
    // What its value has to be.
    parser: ValueParser<'a>,
    // What help calls its value.
    value_name: &'a str,
    default: Option<&'a str>,
    // The options that it does not go with.
    conflicts: &'a [&'a str],
}

impl<'a> Argument<'a> {
    /// An option with a value.
    pub(crate) fn option(name: &'a str, help: &'a str) -> Argument<'a> {
        Argument {
            name,
            help,
            action: Some(ArgAction::Set),
            is_required: false,
            parser: ValueParser::String,
            value_name: name,
            default: None,
            conflicts: &[],
        }
    }

    /// An option that has to be there.
    pub(crate) fn needed(name: &'a str, help: &'a str) -> Argument<'a> {
        Argument {
            is_required: true,
            ..Argument::option(name, help)
        }
    }

    /// An option with the value that it has where it is left out.
    pub(crate) fn usual(
        name: &'a str,
        help: &'a str,
        default: &'a str,
        parser: ValueParser<'a>,
    ) -> Argument<'a> {
        Argument {
            default: Some(default),
            parser,
            ..Argument::option(name, help)
        }
    }

    /// An option without a value.
    pub(crate) fn flag(name: &'a str, help: &'a str) -> Argument<'a> {
        Argument {
            action: Some(ArgAction::SetTrue),
            ..Argument::option(name, help)
        }
    }

    /// What a command is about, told by its place.
    pub(crate) fn place(name: &'a str, value_name: &'a str, help: &'a str) -> Argument<'a> {
        Argument {
            action: None,
            is_required: true,
            value_name,
            ..Argument::option(name, help)
        }
    }

    /// The same with a value that has to be this.
    pub(crate) fn of(self, parser: ValueParser<'a>) -> Argument<'a> {
        Argument { parser, ..self }
    }

    /// The same whose value help calls so.
    pub(crate) fn called(self, value_name: &'a str) -> Argument<'a> {
        Argument { value_name, ..self }
    }

    /// The same, which does not go with these options.
    pub(crate) fn without(self, conflicts: &'a [&'a str]) -> Argument<'a> {
        Argument { conflicts, ..self }
    }

    // Tells `clap` of its name and its value.
    fn arg(&self, alloc: Global) -> Arg<'a> {
        let arg = Arg::new(alloc, self.name)
            .help(self.help)
            .required(self.is_required);
        match self.action {
            None => arg.value_name(self.value_name),
            Some(ArgAction::Set) => arg
                .long(self.name)
                .action(ArgAction::Set)
                .value_name(self.value_name)
                .value_parser(self.parser),
            Some(action) => arg.long(self.name).action(action),
        }
    }

    // The same, with what it is where it is left out, and what it does not go with.
    fn whole_arg(&self, alloc: Global) -> Result<Arg<'a>, AllocError> {
        let arg = self.arg(alloc);
        let arg = match self.default {
            Some(default) => arg.default_value(default),
            None => arg,
        };
        arg.conflicts_with_all(self.conflicts)
    }
}

/// A command that is told these.
pub(crate) fn command_of<'a>(
    alloc: Global,
    name: &'a str,
    about: &'a str,
    told: &[Argument<'a>],
) -> Result<Command<'a>, AllocError> {
    let mut command = Command::new(alloc, name).about(about);
    for argument in told {
        command = command.arg(argument.whole_arg(alloc)?)?;
    }
    Ok(command)
}

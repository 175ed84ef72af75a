// Commands that are built from tables.
ghost use Rattle.std.specs.Prelude.{◌≡◌, Bool, IfOk, map, false};
ghost use Rattle.clap.specs.Words.{Rule, app_of, new_app, rule_of};
ghost use Rattle.mini_words.specs.Commands.{HasForm, form_for, rule_for};

use clap::{Arg, ArgAction, Command};
use std::alloc::{AllocError, Global};

/// How an argument is given.
#[derive(Clone, Copy)]
pub enum Kind {
    /// an option of this letter, with a value
    Value(char),
    /// the same, and it must be there
    Needed(char),
    /// an option of this letter, without a value
    Flag(char),
    /// a word, which must be there
    One,
    /// one word or more
    Many,
    /// any number of words
    Any,
}

/// An argument of a command: the name by which it is found, how it is given, and what help says of it.
#[derive(Clone, Copy)]
pub struct Argument<'a> {
    pub id: &'a str,
    pub kind: Kind,
    pub help: &'a str,
}

/// A command: its name, what help says of it, a text behind its arguments, and these.
#[derive(Clone, Copy)]
pub struct CommandForm<'a> {
    pub name: &'a str,
    pub about: &'a str,
    pub behind: Option<&'a str>,
    pub arguments: &'a [Argument<'a>],
}

/// A command with no arguments, and what help says of it.
pub fn new_command<'a>(
    alloc: Global,
    name: &'a str,
    about: &'a str,
    behind: Option<&'a str>,
) -> Command<'a>
    ensures { HasForm result (new_app name.entry.now) }
{
    let command = Command::new(alloc, name).about(about);
    match behind {
        Some(text) => command.after_help(text),
        None => command,
    }
}

// An argument as clap has it.
fn arg_of<'a>(alloc: Global, argument: &Argument<'a>) -> Arg<'a>
    ensures rule { rule_of result ≡ rule_for argument.now }
    ensures local { result.global ≡ false }
{
    let arg = Arg::new(alloc, argument.id).help(argument.help);
    match argument.kind {
        Kind::Value(letter) => arg.short(letter),
        Kind::Needed(letter) => arg.short(letter).required(true),
        Kind::Flag(letter) => arg.short(letter).action(ArgAction::SetTrue),
        Kind::One => arg.required(true),
        Kind::Many => arg.required(true).num_args(1..),
        Kind::Any => arg.num_args(0..),
    }
}

// Arguments as clap has them, in their order.
fn args_of<'a>(alloc: Global, arguments: &[Argument<'a>]) -> Result<Vec<Arg<'a>>, AllocError>
    ensures { IfOk result (λ args. map {B = Rule × Bool} (λ a. (rule_of a, a.global)) args.items
        ≡ map {B = Rule × Bool} (λ argument. (rule_for argument, false)) arguments.now) }
{
    let mut args = Vec::with_capacity(alloc, arguments.len())?;
    for argument in arguments {
        args.push_reserved(arg_of(alloc, argument));
    }
    Ok(args)
}

// A command with its arguments.
fn command_of<'a>(alloc: Global, form: &CommandForm<'a>) -> Result<Command<'a>, AllocError>
    ensures { IfOk result (λ c. HasForm c (form_for form.now)) }
{
    let args = args_of(alloc, form.arguments)?;
    new_command(alloc, form.name, form.about, form.behind).args(args)
}

/// The commands of these forms, in their order.
pub fn commands_of<'a>(
    alloc: Global,
    forms: &[CommandForm<'a>],
) -> Result<Vec<Command<'a>>, AllocError>
    ensures { IfOk result (λ commands. map app_of commands.items ≡ map form_for forms.now) }
{
    let mut commands = Vec::with_capacity(alloc, forms.len())?;
    for form in forms {
        commands.push_reserved(command_of(alloc, form)?);
    }
    Ok(commands)
}

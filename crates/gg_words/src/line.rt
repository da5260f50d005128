//! The command line as `clap` reads it.
ghost use Rattle.std.specs.Prelude.{◌≡◌, IfOk, false};
ghost use Rattle.clap.specs.Walk.{rule_of};
ghost use Rattle.clap.specs.Simple.{app_of, new_app, shape_of};
ghost use Rattle.clap.specs.declared.builder.command.Command.TheViews.{out-Command};
ghost use Rattle.gg_words.specs.Line.{golden_app};
ghost use Rattle.gg_words.specs.inside.Line.{IsReadAs, bare_app, rule_for, shape_for, with_commands, with_rules};

use Kind::{Flag, Value, Word};
use clap::{Arg, ArgAction, Command};
use std::alloc::{AllocError, Global};

// How an argument is given.
#[derive(Clone, Copy)]
pub(crate) enum Kind {
    // By its place. It is required.
    Word,
    // After its name, with a value.
    Value,
    // By its name, without a value.
    Flag,
}

// A command's name, and its arguments.
type Line = (&'static str, &'static [(Kind, &'static str)]);

// The commands.
static COMMANDS: [Line; 6] = [
    (
        "run",
        &[
            (Word, "circuit"),
            (Word, "partition"),
            (Word, "trace"),
            (Value, "capacity"),
            (Value, "workers"),
            (Flag, "mono"),
        ],
    ),
    (
        "replay",
        &[
            (Word, "circuit"),
            (Word, "partition"),
            (Word, "trace"),
            (Word, "steps"),
            (Value, "capacity"),
        ],
    ),
    (
        "check",
        &[(Word, "circuit"), (Word, "partition"), (Value, "capacity")],
    ),
    (
        "demo",
        &[(Word, "seed"), (Word, "size"), (Value, "workers")],
    ),
    (
        "save",
        &[
            (Word, "circuit"),
            (Word, "partition"),
            (Word, "trace"),
            (Word, "at"),
            (Value, "capacity"),
            (Value, "workers"),
        ],
    ),
    (
        "resume",
        &[
            (Word, "circuit"),
            (Word, "partition"),
            (Word, "trace"),
            (Word, "snap"),
            (Value, "capacity"),
            (Value, "workers"),
        ],
    ),
];

// An argument of this kind.
fn argument<'a>(alloc: Global, kind: Kind, name: &'a str) -> Arg<'a>
    ensures rule { rule_of result ≡ rule_for kind name.entry.now }
    ensures local { result.global ≡ false }
{
    let argument = Arg::new(alloc, name);
    match kind {
        Word => argument.required(true),
        Value => argument.long(name),
        Flag => argument.long(name).action(ArgAction::SetTrue),
    }
}

// A command with these arguments.
fn command<'a>(
    alloc: Global,
    name: &'a str,
    arguments: &'static [(Kind, &'static str)],
) -> Result<Command<'a>, AllocError>
    ensures { IfOk result (IsReadAs (with_rules (new_app name.entry.now) arguments.now)) }
{
    let mut command = Command::new(alloc, name);
    for &(kind, id) in arguments {
        command = command.arg(argument(alloc, kind, id))?;
    }
    Ok(command)
}

// The command of this line.
fn line_command<'a>(alloc: Global, line: &Line) -> Result<Command<'a>, AllocError>
    ensures shape { IfOk result (λ c. shape_of c ≡ shape_for line.now) }
    ensures local { IfOk result (λ c. (out-Command c).has_globals ≡ false) }
{
    let (name, arguments) = *line;
    let command = command(alloc, name, arguments)?;
    Ok(command)
}

// The program without its commands.
fn program<'a>(alloc: Global) -> Command<'a>
    ensures { IsReadAs bare_app result }
{
    Command::new(alloc, "golden")
        .disable_help_flag(true)
        .disable_help_subcommand(true)
        .subcommand_required(true)
}

// The program with these commands.
fn program_with<'a>(alloc: Global, commands: &[Line]) -> Result<Command<'a>, AllocError>
    ensures { IfOk result (IsReadAs (with_commands bare_app commands.now)) }
{
    let mut program = program(alloc);
    for line in commands {
        program = program.subcommand(line_command(alloc, line)?)?;
    }
    Ok(program)
}

// The program's command line.
pub(crate) fn golden_line<'a>(alloc: Global) -> Result<Command<'a>, AllocError>
    ensures { IfOk result (λ c. app_of c ≡ golden_app) }
{
    program_with(alloc, &COMMANDS)
}

//! The command line as `clap` sees it.
ghost use Rattle.std.specs.Prelude.{◌≡◌, IfOk, false};
ghost use Rattle.clap.specs.Words.{app_of, shape_of, with_subcommand};
ghost use Rattle.clap.specs.Simple.{new_shape};
ghost use Rattle.clap.specs.declared.builder.command.Command.TheViews.{out-Command as fields_of};
ghost use Rattle.command_line.specs.inside.CommandLine.{dsc, program, with_first_commands, with_last_commands, with_number, with_option};

use clap::{Arg, Command};
use std::alloc::{AllocError, Global};

/// The program's command line: its commands, one a line. It is made in frames of their own: the copies that this takes
/// are gone while words are read.
#[inline(never)]
pub fn command_line<'a>(alloc: Global) -> Result<Command<'a>, AllocError>
    ensures { IfOk result (λ r. app_of r ≡ dsc) }
{
    let program = with_first_commands(alloc, without_commands(alloc))?;
    with_last_commands(alloc, program)
}

/// The program with its first commands.
#[inline(never)]
fn with_first_commands<'a>(alloc: Global, program: Command<'a>) -> Result<Command<'a>, AllocError>
    ensures { IfOk result (λ r. app_of r ≡ with_first_commands (app_of program.entry)) }
{
    let program = add_with_option(alloc, program, "join", "workers")?;
    let program = add_with_option(alloc, program, "evidence", "workers")?;
    let program = add_with_option(alloc, program, "encode", "dots")?;
    add_alone(alloc, program, "sentences")
}

/// The program with the commands after these.
#[inline(never)]
fn with_last_commands<'a>(alloc: Global, program: Command<'a>) -> Result<Command<'a>, AllocError>
    ensures { IfOk result (λ r. app_of r ≡ with_last_commands (app_of program.entry)) }
{
    let program = add_with_option(alloc, program, "replay", "workers")?;
    let program = add_with_number(alloc, program, "make")?;
    let program = add_alone(alloc, program, "capture")?;
    let program = add_with_option(alloc, program, "watch", "workers")?;
    let program = add_alone(alloc, program, "exchange")?;
    add_alone(alloc, program, "book")
}

/// The program with one more command, which has one option.
fn add_with_option<'a>(
    alloc: Global,
    program: Command<'a>,
    name: &'a str,
    long: &'a str,
) -> Result<Command<'a>, AllocError>
    ensures { IfOk result (λ r. app_of r ≡ with_subcommand (app_of program.entry) (with_option name.now long.now)) }
{
    program.subcommand(with_option(alloc, name, long)?)
}

/// The program with one more command, which has a number.
fn add_with_number<'a>(
    alloc: Global,
    program: Command<'a>,
    name: &'a str,
) -> Result<Command<'a>, AllocError>
    ensures { IfOk result (λ r. app_of r ≡ with_subcommand (app_of program.entry) (with_number name.now)) }
{
    program.subcommand(with_number(alloc, name)?)
}

/// The program with one more command, which is its word alone.
fn add_alone<'a>(
    alloc: Global,
    program: Command<'a>,
    name: &'a str,
) -> Result<Command<'a>, AllocError>
    ensures { IfOk result (λ r. app_of r ≡ with_subcommand (app_of program.entry) (new_shape name.now)) }
{
    program.subcommand(Command::new(alloc, name))
}

/// The program without its commands. Help is no command, and no words but a command's are taken.
fn without_commands<'a>(alloc: Global) -> Command<'a>
    ensures { app_of result ≡ program }
{
    Command::new(alloc, "dsc")
        .disable_help_flag(true)
        .disable_help_subcommand(true)
        .subcommand_required(true)
}

/// A command with one option, which takes a number. The option's id is `number` whatever its name, so that one function
/// reads it.
fn with_option<'a>(alloc: Global, name: &'a str, long: &'a str) -> Result<Command<'a>, AllocError>
    ensures shape { IfOk result (λ r. shape_of r ≡ with_option name.now long.now) }
    ensures local { IfOk result (λ r. (fields_of r).has_globals ≡ false) }
{
    Command::new(alloc, name).arg(Arg::new(alloc, "number").long(long))
}

/// A command without options, after which one number has to come.
fn with_number<'a>(alloc: Global, name: &'a str) -> Result<Command<'a>, AllocError>
    ensures shape { IfOk result (λ r. shape_of r ≡ with_number name.now) }
    ensures local { IfOk result (λ r. (fields_of r).has_globals ≡ false) }
{
    Command::new(alloc, name).arg(Arg::new(alloc, "number").required(true))
}

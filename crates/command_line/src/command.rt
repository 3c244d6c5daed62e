//! The command that is read, as `clap` takes it.

ghost use Rattle.std.specs.Prelude.{◌≡◌, [], IfOk, IfErr, map, string_bytes};
ghost use Rattle.clap.specs.Words.{app_of, fault_of, found_of, matches_of, rows_of, with_rule};
ghost use Rattle.command_line.specs.Commands.{bare_command, files_rule, option_rule, solve_command};
ghost use Rattle.command_line.specs.declared.words.WordsFault.TheVariants.{Usage};

use crate::WordsFault;
use clap::error::ErrorKind;
use clap::{Arg, ArgMatches, Command};
use std::alloc::{AllocError, Global};

/// The matches of the words behind `solve`.
pub(crate) fn read_matches<'a>(
    alloc: Global,
    words: &'a [String],
) -> Result<ArgMatches<'a>, WordsFault>
    ensures matches { IfOk result (λ m. (fault_of solve_command (map string_bytes words.now) ≡ [])
        × (rows_of (found_of m) ≡ matches_of solve_command (map string_bytes words.now))) }
    ensures usage { IfErr result (λ e. e ≡ Usage → ¬ (fault_of solve_command (map string_bytes words.now) ≡ [])) }
{
    let Ok(command) = solve_command(alloc) else {
        return Err(WordsFault::OutOfMemory);
    };
    match command.try_get_matches_from(words) {
        Ok(matches) => Ok(matches),
        Err(error) => Err(fault_of(error.kind())),
    }
}

// Why the words are refused.
fn fault_of(kind: ErrorKind) -> WordsFault
    ensures { result ≡ Usage → ¬ (kind ≡ ErrorKind.OutOfMemory) }
{
    match kind {
        ErrorKind::OutOfMemory => WordsFault::OutOfMemory,
        _ => WordsFault::Usage,
    }
}

// The command: five options and the files.
fn solve_command<'a>(alloc: Global) -> Result<Command<'a>, AllocError>
    ensures { IfOk result (λ c. app_of c ≡ solve_command) }
{
    let command = bare_command(alloc);
    let command = with_option(alloc, command, "after")?;
    let command = with_option(alloc, command, "limit")?;
    let command = with_option(alloc, command, "conflicts")?;
    let command = with_option(alloc, command, "instances")?;
    let command = with_option(alloc, command, "trace")?;
    with_files(alloc, command)
}

// A command without arguments, of which all words are arguments.
fn bare_command<'a>(alloc: Global) -> Command<'a>
    ensures { app_of result ≡ bare_command }
{
    Command::new(alloc, "solve")
        .no_binary_name(true)
        .disable_help_flag(true)
        .disable_version_flag(true)
}

// The command with one more option, which has one value.
fn with_option<'a>(
    alloc: Global,
    command: Command<'a>,
    name: &'a str,
) -> Result<Command<'a>, AllocError>
    ensures { IfOk result (λ c. app_of c ≡ with_rule (app_of command.entry) (option_rule name.entry.now)) }
{
    let option = Arg::new(alloc, name).long(name);
    command.arg(option)
}

// The command with the files, one or more.
fn with_files<'a>(alloc: Global, command: Command<'a>) -> Result<Command<'a>, AllocError>
    ensures { IfOk result (λ c. app_of c ≡ with_rule (app_of command.entry) files_rule) }
{
    let files = Arg::new(alloc, "files").num_args(1..).required(true);
    command.arg(files)
}

//! The command line, split into its parts by clap.
ghost use Rattle.std.specs.Prelude.{◌≡◌, IfOk, option_map};
ghost use Rattle.clap.specs.Words.{app_of};
ghost use Rattle.cl_invocation.specs.Command.{app, parts_in};
ghost use Rattle.cl_invocation.specs.Shown.{texts};
ghost use Rattle.cl_invocation.specs.Words.{any, parts_from};

use crate::kinds::are_words;
use clap::error::ErrorKind;
use clap::{Arg, ArgAction, ArgMatches, Command};
use std::alloc::{AllocError, Global};

/// The parts of the words, where each word is one of a command and no value is left out.
pub fn parts_of<'a>(
    alloc: Global,
    words: &'a [&'a str],
) -> Result<Option<ArgMatches<'a>>, AllocError>
    ensures { IfOk result (λ read. option_map parts_in read ≡ parts_from any (texts words.entry.now)) }
{
    if !are_words(words) {
        return Ok(None);
    }
    let command = command(alloc)?;
    match command.try_get_matches_from(words) {
        Ok(matches) => Ok(Some(matches)),
        Err(error) => match error.kind() {
            ErrorKind::OutOfMemory => Err(AllocError),
            _ => Ok(None),
        },
    }
}

// Each argument keeps all its values; the caller counts them.
fn command<'a>(alloc: Global) -> Result<Command<'a>, AllocError>
    ensures { IfOk result (λ made. app_of made ≡ app) }
{
    let words = Arg::new(alloc, "words").action(ArgAction::Append);
    let wire = Arg::new(alloc, "wire")
        .action(ArgAction::Append)
        .long("wire");
    let budget = Arg::new(alloc, "budget")
        .action(ArgAction::Append)
        .long("budget");
    Command::new(alloc, "clim")
        .no_binary_name(true)
        .disable_help_flag(true)
        .arg(words)?
        .arg(wire)?
        .arg(budget)
}

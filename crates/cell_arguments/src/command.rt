//! The command that `clap` reads.

ghost use Rattle.std.specs.Prelude.{◌≡◌, ◌≢◌, false, [], map, IfOk, IfErr, string_bytes};
ghost use Rattle.clap.specs.Words.{app_of, fault_of, found_of, matches_of, rows_of, rule_of};
ghost use Rattle.cell_arguments.specs.Arguments.{command, option};

use crate::ArgumentsFault;
use clap::error::ErrorKind;
use clap::{Arg, ArgMatches, Command};
use std::alloc::{AllocError, Global};

/// An option that takes one value.
fn option<'a>(alloc: Global, name: &'a str) -> Arg<'a>
    ensures rule { rule_of result ≡ option name.now }
    ensures own { result.global ≡ false }
{
    Arg::new(alloc, name).long(name)
}

/// Two positionals and four options that each take one value, without help and version.
fn command<'a>(alloc: Global) -> Result<Command<'a>, AllocError>
    ensures { IfOk result (λ c. app_of c ≡ command) }
{
    Command::new(alloc, "cells")
        .no_binary_name(true)
        .disable_help_flag(true)
        .disable_version_flag(true)
        .arg(Arg::new(alloc, "dir"))?
        .arg(Arg::new(alloc, "script"))?
        .arg(option(alloc, "base"))?
        .arg(option(alloc, "pages"))?
        .arg(option(alloc, "generate"))?
        .arg(option(alloc, "seed"))
}

/// What the words match. Words that the command refuses are `Usage`.
pub fn matches_in<'a>(alloc: Global, words: &'a [String]) -> Result<ArgMatches<'a>, ArgumentsFault>
    ensures taken { IfOk result (λ m. fault_of command (map string_bytes words.now) ≡ []) }
    ensures rows { IfOk result (λ m. rows_of (found_of m) ≡ matches_of command (map string_bytes words.now)) }
    ensures refused { IfErr result (λ fault. fault ≡ ArgumentsFault.Usage → fault_of command (map string_bytes words.now) ≢ []) }
{
    let Ok(command) = command(alloc) else {
        return Err(ArgumentsFault::OutOfMemory);
    };
    match command.try_get_matches_from(words) {
        Ok(matches) => Ok(matches),
        Err(error) => Err(cause_of(error.kind())),
    }
}

/// Want of memory is no fault of the words.
fn cause_of(kind: ErrorKind) -> ArgumentsFault
    ensures { result ≡ ArgumentsFault.Usage → kind ≢ ErrorKind.OutOfMemory }
{
    if kind == ErrorKind::OutOfMemory {
        ArgumentsFault::OutOfMemory
    } else {
        ArgumentsFault::Usage
    }
}

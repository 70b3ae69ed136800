// The command line as clap takes it, numbers being texts.
ghost use Rattle.std.specs.Prelude.{◌≡◌, ◌≢◌, [], map, string_bytes, option_map, IfErr, IfOk};
ghost use Rattle.clap.specs.Words.{app_of, fault_of, found_of, kind_of, matches_of, rows_of};
ghost use Rattle.command_words.specs.Command.{rows_found, words_command};

use clap::error::ErrorKind;
use clap::{Arg, ArgAction, ArgMatches, Command, Error};
use soar_sym::NoMemory;
use std::alloc::{AllocError, Global};

/// Two options with a value, and files. There is no help and no version.
fn words_command<'a>(alloc: Global) -> Result<Command<'a>, AllocError>
    ensures { IfOk result (λ command. app_of command ≡ words_command) }
{
    let watch = Arg::new(alloc, "watch")
        .long("watch")
        .action(ArgAction::Set);
    let generate = Arg::new(alloc, "generate")
        .long("generate")
        .action(ArgAction::Set);
    let file = Arg::new(alloc, "file").action(ArgAction::Append);
    Command::new(alloc, "soar_app")
        .no_binary_name(true)
        .disable_help_flag(true)
        .disable_version_flag(true)
        .arg(watch)?
        .arg(generate)?
        .arg(file)
}

/// The same, as clap answers.
fn try_words<'a>(alloc: Global, words: &'a [String]) -> Result<ArgMatches<'a>, Error>
    ensures rows { IfOk result (λ m. rows_of (found_of m) ≡ matches_of words_command (map string_bytes words.entry.now)) }
    ensures accepted { IfOk result (λ _. fault_of words_command (map string_bytes words.entry.now) ≡ []) }
    ensures refused { IfErr result (λ e. kind_of e ≢ ErrorKind.OutOfMemory → fault_of words_command (map string_bytes words.entry.now) ≢ []) }
{
    let command = words_command(alloc)?;
    command.try_get_matches_from(words)
}

/// What clap finds in the words, or None where it refuses them.
#[tactic(auto, using(crate::proofs::CommandLemmas::refused_rows, crate::proofs::CommandLemmas::taken_rows))]
pub fn find_matches<'a>(
    alloc: Global,
    words: &'a [String],
) -> Result<Option<ArgMatches<'a>>, NoMemory>
    ensures { IfOk result (λ matches. option_map (λ m. rows_of (found_of m)) matches ≡ rows_found (map string_bytes words.entry.now)) }
{
    match try_words(alloc, words) {
        Ok(matches) => Ok(Some(matches)),
        Err(fault) => match fault.kind() {
            ErrorKind::OutOfMemory => Err(NoMemory),
            _ => Ok(None),
        },
    }
}

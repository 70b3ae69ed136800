// What the words give, and its numbers.
ghost use Rattle.std.specs.Prelude.{◌≡◌, [], codes, map, option_map, unwrap_or, IfOk};
ghost use Rattle.clap.specs.Words.{first_value, found_of, matched_of, raw_values, rows_of};
ghost use Rattle.command_words.specs.Given.{given_in, number_in, numbers_read, with_numbers};
ghost use Rattle.command_words.specs.Seen.{options_seen};

use crate::number::{item_count, watch_level};
use crate::options::Options;
use clap::ArgMatches;
use soar_sym::{List, NoMemory, Text};
use std::alloc::Global;

/// The options that clap found, or None where a text is no number that its option may have.
#[tactic(auto, using(crate::proofs::CommandLemmas::given_rows))]
pub fn options_in(alloc: Global, matches: &ArgMatches) -> Result<Option<Options>, NoMemory>
    ensures { IfOk result (λ options. option_map options_seen options ≡ numbers_read (given_in (rows_of (found_of matches.now)))) }
{
    let files = files_in(alloc, matches)?;
    Ok(with_numbers(watch_in(matches), generate_in(matches), files))
}

/// The options, where both numbers could be read.
fn with_numbers(
    watch: Option<Option<u8>>,
    generate: Option<Option<u32>>,
    files: List<Text>,
) -> Option<Options>
    ensures { option_map options_seen result ≡ with_numbers files watch generate }
{
    match (watch, generate) {
        (Some(watch), Some(generate)) => Some(Options {
            watch,
            generate,
            files,
        }),
        _ => None,
    }
}

/// The watch level, if there is one, or None where it is no such number.
fn watch_in(matches: &ArgMatches) -> Option<Option<u8>>
    ensures { result ≡ number_in 0 5 (first_value (found_of matches.now) (codes "watch")) }
{
    match matches.get_str("watch") {
        Some(text) => match watch_level(text.as_bytes()) {
            Some(level) => Some(Some(level)),
            None => None,
        },
        None => Some(None),
    }
}

/// The number of items, if there is one, or None where it is no such number.
fn generate_in(matches: &ArgMatches) -> Option<Option<u32>>
    ensures { result ≡ number_in 1 200000 (first_value (found_of matches.now) (codes "generate")) }
{
    match matches.get_str("generate") {
        Some(text) => match item_count(text.as_bytes()) {
            Some(count) => Some(Some(count)),
            None => None,
        },
        None => Some(None),
    }
}

/// The names of the files, in order.
fn files_in(alloc: Global, matches: &ArgMatches) -> Result<List<Text>, NoMemory>
    ensures { IfOk result (λ files. files ≡ unwrap_or (option_map raw_values (matched_of (found_of matches.now) (codes "file"))) []) }
{
    match matches.get_strs("file") {
        Some(names) => copied(alloc, names),
        None => Ok(List::new(alloc)),
    }
}

/// The names as texts of their own.
fn copied(alloc: Global, names: &[&str]) -> Result<List<Text>, NoMemory>
    ensures { IfOk result (λ files. files ≡ map (λ name. name.now) names.now) }
{
    let mut files = List::new(alloc);
    for name in names {
        files.push(Text::from_str(alloc, name)?)?;
    }
    Ok(files)
}

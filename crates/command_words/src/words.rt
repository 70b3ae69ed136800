ghost use Rattle.std.specs.Prelude.{◌≡◌, map, string_bytes, option_map, IfOk};
ghost use Rattle.defs_run.specs.CommandLine.{no_options, options_from, options_of};
ghost use Rattle.command_words.specs.Seen.{options_seen};

use crate::command::find_matches;
use crate::given::options_in;
use crate::options::Options;
use soar_sym::NoMemory;
use std::alloc::Global;

/// What the words of a command line ask for, those behind the program's name, or None where they are not of the form (then the program gives its usage line).
pub fn read_options(alloc: Global, words: &Vec<String>) -> Result<Option<Options>, NoMemory>
    ensures { IfOk result (λ options. option_map options_seen options ≡ options_of (map string_bytes words.now.items)) }
{
    match read_words(alloc, words.as_slice())? {
        Some(options) => Ok(options.unless_both()),
        None => Ok(None),
    }
}

/// The same, where a script may be asked for beside files.
fn read_words(alloc: Global, words: &[String]) -> Result<Option<Options>, NoMemory>
    ensures { IfOk result (λ options. option_map options_seen options ≡ options_from no_options (map string_bytes words.now)) }
{
    match find_matches(alloc, words)? {
        Some(matches) => options_in(alloc, &matches),
        None => Ok(None),
    }
}

ghost use Rattle.std.specs.Prelude.{◌≡◌, option_map};
ghost use Rattle.defs_run.specs.CommandLine.{unless_both};
ghost use Rattle.command_words.specs.Seen.{options_seen};

use soar_sym::{List, Text};

/// What the words of a command line ask for.
#[derive(Drop)]
pub struct Options {
    /// The watch level to begin with, from 0 to 5.
    pub watch: Option<u8>,

    /// How many items the script has that is to be written, from 1 to 200,000.
    pub generate: Option<u32>,

    /// The names of the files to run, in order.
    pub files: List<Text>,
}

impl Options {
    /// The options, unless they ask for a script beside files.
    pub(crate) fn unless_both(self) -> Option<Options>
        ensures { option_map options_seen result ≡ unless_both (options_seen self) }
    {
        if self.generate.is_some() && !self.files.is_empty() {
            return None;
        }
        Some(self)
    }
}

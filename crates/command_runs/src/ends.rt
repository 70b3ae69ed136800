ghost use Rattle.std.specs.Prelude.{◌≡◌};
ghost use Rattle.command_runs.specs.Following.{ended_by};

use soar_sym::{List, Text};

/// How a run ended before its commands were all carried out, or that they were.
#[derive(Clone, Copy, PartialEq, Eq)]
pub enum End {
    Done,
    Refusals,
    TooLong,
    Limit,
}

/// Whether a run goes on behind some of its commands.
#[derive(Clone, Copy, PartialEq, Eq)]
pub enum Flow {
    Goes,
    Ends(End),
}

/// A file that was read.
#[derive(Drop)]
pub struct Opened {
    pub name: Text,
    pub bytes: List<u8>,
}

/// What a command leads to: the next one, the end of the run, or the commands of a file.
#[derive(Drop)]
pub enum Step {
    Goes,
    Ends(End),
    Opens(Opened),
}

/// The end of a run in which some command was refused, or none.
pub fn ended_by(refused: bool) -> End
    ensures { result ≡ ended_by refused }
{
    if refused { End::Refusals } else { End::Done }
}

ghost use Rattle.std.specs.Prelude.{◌≡◌, ◌-◌, ◌^◌, ◌<◌, ◌≤◌, length, IfOk};
ghost use Rattle.soar_edge.specs.Outside.{HasPutCause};
ghost use Rattle.defs_run.specs.Whole.{whole_stage};
ghost use Rattle.defs_run.specs.Runs.{obeyed};
ghost use Rattle.defs_run.specs.Sessions.{Session, refused_by};
ghost use Rattle.command_runs.specs.Carrying.{IsReadyAfter, Refuses, Speaks, refusal_of};

use soar_edge::{Command, PutFault, Sink};
use soar_sym::Text;
use std::alloc::Global;

/// What follows a command: the next one, the commands of a file, or the end of the run.
#[derive(Drop)]
pub enum Next {
    Command,
    File(Text),
    End,
}

/// How a command went: it was carried out, and refused or not, and something follows, or it would have passed a limit.
#[derive(Drop)]
pub enum Answered {
    Went(bool, Next),
    Stopped,
}

/// What is refused without being a command of the language.
#[derive(Clone, Copy, PartialEq, Eq)]
pub enum Unread {
    /// A command that has no end.
    Unfinished,
    /// There is no file of the name.
    NoFile,
    /// A file inside so many others that no further one is read.
    TooDeep,
    /// One file more than a run asks for.
    TooMany,
}

/// Carries commands out, one at a time, and writes what they say.
pub trait Carrier {
    /// Whether it stands for a session.
    ghost stands: { Self → Session → Type 0 };

    /// Whether it can take a command.
    ghost ready: { Self → Type 0 };

    /// Carries a command of a source out, and writes what it says.
    fn answer<O: Sink>(
        &mut self,
        alloc: Global,
        command: &Command,
        source: &str,
        out: &mut O,
    ) -> Result<Answered, PutFault>
        requires short { length command.now.text ≤ 2 ^ 26 }
        requires ready { ready self.old }
        requires sink { O.faults out.old < 2 ^ 64 - 1 }
        ensures answer { (s : Session) → stands self.old s →
            Speaks (stands self.new) s (obeyed whole_stage source.now command.now.line command.now.text s) (O.written out.old) (O.written out.new) result }
        ensures ready { IsReadyAfter (ready self.new) result }
        ensures cause { HasPutCause (O.faults out.old) (O.faults out.new) result };

    /// Refuses on a line of a source what is no command, and writes that. The name is that of the file.
    fn refuse<O: Sink>(
        &mut self,
        alloc: Global,
        why: Unread,
        name: &str,
        source: &str,
        line: u64,
        out: &mut O,
    ) -> Result<(), PutFault>
        requires ready { ready self.old }
        requires sink { O.faults out.old < 2 ^ 64 - 1 }
        ensures answer { (s : Session) → stands self.old s →
            Refuses (stands self.new) s (refused_by (refusal_of why name.now) source.now line s) (O.written out.old) (O.written out.new) result }
        ensures ready { IfOk result (λ _. ready self.new) }
        ensures cause { HasPutCause (O.faults out.old) (O.faults out.new) result };
}

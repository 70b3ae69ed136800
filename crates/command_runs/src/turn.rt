// The next command of a stream.
ghost use Rattle.std.specs.Prelude.{◌≡◌, ◌-◌, ◌^◌, ◌<◌, [], Bool, false, List as ListOf, ℕ, Option, Some};
ghost use Rattle.soar_edge.specs.Cuts.{MayFollow, cuts_with};
ghost use Rattle.soar_edge.specs.declared.filed.Filed.{Filed};
ghost use Rattle.defs_run.specs.Runs.{Run};
ghost use Rattle.command_runs.specs.Causes.{Fetched, ShelfCause, SinkCause};
ghost use Rattle.command_runs.specs.Following.{Comes, IsAt, inner_of};
ghost use Rattle.command_runs.specs.Turning.{IsReadyTurn, IsTurn, TakesCommand, Turns, WaitsBehind};

use crate::carrier::{Carrier, Unread};
use crate::ends::{End, Flow, Step};
use crate::fault::Fault;
use crate::opening::refuse;
use crate::progress::Progress;
use crate::step::obey_command;
use soar_edge::{Cut, Cutter, Shelf, Sink};
use soar_sym::Text;
use std::alloc::Global;

/// What the next command of a stream leads to, or how the run goes on where no whole one is left.
#[derive(Drop)]
pub enum Turn {
    Took(Step),
    Last(Flow),
}

/// Takes the next command of a source off and carries it out.
pub fn next_turn<C: Carrier + Drop, F: Shelf, O: Sink>(
    alloc: Global,
    depth: u32,
    cutter: &mut Cutter,
    source: &str,
    progress: &mut Progress<C>,
    files: &mut F,
    out: &mut O,
) -> Result<Turn, Fault>
    requires ready { C.ready progress.old.carrier }
    requires shelf { F.faults files.old < 2 ^ 64 - 1 }
    requires sink { O.faults out.old < 2 ^ 64 - 1 }
    ensures turn { (stock : ListOf Filed) → F.files files.old ≡ Some stock → (fails : Option ℕ) → Comes fails progress.new.fetched → (r : Run) → IsAt (C.stands progress.old.carrier) progress.old r → (ends : Bool) (more : ListOf ℕ) → MayFollow cutter.old.closed ends more →
        Turns (C.stands progress.new.carrier) progress.new (O.written out.old) (O.written out.new) fails (inner_of fails stock depth) stock source.now
        cutter.old.closed (cuts_with cutter.old ends more) (cuts_with cutter.new ends more) r result }
    ensures takes { TakesCommand cutter.old cutter.new result }
    ensures waits { WaitsBehind cutter.old.closed (cuts_with cutter.new false []) result }
    ensures fed { cutter.new.fed ≡ cutter.old.fed }
    ensures closed { cutter.new.closed ≡ cutter.old.closed }
    ensures within { IsTurn depth result }
    ensures ready { IsReadyTurn (C.ready progress.new.carrier) result }
    ensures fetched { Fetched progress.old.fetched progress.new.fetched (F.fetched files.old) (F.fetched files.new) }
    ensures stock { F.files files.new ≡ F.files files.old }
    ensures shelf { ShelfCause (F.faults files.old) (F.faults files.new) result }
    ensures sink { SinkCause (O.faults out.old) (O.faults out.new) result }
{
    let cut = cutter.next_command();
    match cut {
        Ok(Cut::Whole(command)) => {
            match obey_command(alloc, depth, &command, source, progress, files, out) {
                Ok(step) => Ok(Turn::Took(step)),
                Err(fault) => Err(fault),
            }
        }
        Ok(Cut::Unfinished(line)) => {
            let nameless = Text::new(alloc);
            match refuse(
                alloc,
                Unread::Unfinished,
                &nameless,
                source,
                line,
                progress,
                out,
            ) {
                Ok(()) => Ok(Turn::Last(Flow::Goes)),
                Err(fault) => Err(fault),
            }
        }
        Ok(Cut::More) => Ok(Turn::Last(Flow::Goes)),
        Ok(Cut::End) => Ok(Turn::Last(Flow::Goes)),
        Ok(Cut::TooLong) => Ok(Turn::Last(Flow::Ends(End::TooLong))),
        Err(_) => Err(Fault::NoMemory),
    }
}

// The commands of a stream, and of the files inside.
ghost use Rattle.std.specs.Prelude.{◌≡◌, ◌-◌, ◌^◌, ◌<◌, ◌≤◌, [], false, true, Bool, List as ListOf, ℕ, Option, Some, length, IfOk};
ghost use Rattle.soar_edge.specs.Cuts.{MayFollow, cuts_with};
ghost use Rattle.soar_edge.specs.Cutting.{cuts_of};
ghost use Rattle.soar_edge.specs.declared.filed.Filed.{Filed};
ghost use Rattle.defs_run.specs.Whole.{whole_stage};
ghost use Rattle.defs_run.specs.Runs.{Run};
ghost use Rattle.defs_run.specs.Sources.{cuts_run, obeying};
ghost use Rattle.command_runs.specs.Causes.{Fetched, ShelfCause, SinkCause};
ghost use Rattle.command_runs.specs.Following.{Comes, Flows, FlowsTo, IsAt, IsReadyFlow, inner_of};
ghost use Rattle.command_runs.specs.Turning.{Waits, left_behind};

use crate::carrier::Carrier;
use crate::ends::{Flow, Step};
use crate::fault::Fault;
use crate::progress::Progress;
use crate::turn::{Turn, next_turn};
use soar_edge::{Cutter, Shelf, Sink};
use soar_sym::NoMemory;
use std::alloc::Global;

/// Carries out the commands of a source that ends behind these bytes, inside which files may be read so many deep.
pub fn obey_stream<C: Carrier + Drop, F: Shelf, O: Sink>(
    alloc: Global,
    depth: u32,
    source: &str,
    bytes: &[u8],
    progress: &mut Progress<C>,
    files: &mut F,
    out: &mut O,
) -> Result<Flow, Fault>
    requires short { length bytes.now < 2 ^ 63 }
    requires ready { C.ready progress.old.carrier }
    requires shelf { F.faults files.old < 2 ^ 64 - 1 }
    requires sink { O.faults out.old < 2 ^ 64 - 1 }
    ensures flow { (stock : ListOf Filed) → F.files files.old ≡ Some stock → (fails : Option ℕ) → Comes fails progress.new.fetched → (r : Run) → IsAt (C.stands progress.old.carrier) progress.old r →
        Flows (C.stands progress.new.carrier) progress.new (O.written out.old) (O.written out.new) fails (obeying whole_stage fails stock depth source.now true bytes.now r) result }
    ensures ready { IsReadyFlow (C.ready progress.new.carrier) result }
    ensures fetched { Fetched progress.old.fetched progress.new.fetched (F.fetched files.old) (F.fetched files.new) }
    ensures stock { F.files files.new ≡ F.files files.old }
    ensures shelf { ShelfCause (F.faults files.old) (F.faults files.new) result }
    ensures sink { SinkCause (O.faults out.old) (O.faults out.new) result }
{
    match fed_cutter(alloc, bytes) {
        Ok(mut cutter) => obey_fed(alloc, depth, source, &mut cutter, progress, files, out),
        Err(_) => Err(Fault::NoMemory),
    }
}

/// Carries out the commands of a source that are whole in what a cutter was fed.
pub fn obey_fed<C: Carrier + Drop, F: Shelf, O: Sink>(
    alloc: Global,
    depth: u32,
    source: &str,
    cutter: &mut Cutter,
    progress: &mut Progress<C>,
    files: &mut F,
    out: &mut O,
) -> Result<Flow, Fault>
    requires ready { C.ready progress.old.carrier }
    requires shelf { F.faults files.old < 2 ^ 64 - 1 }
    requires sink { O.faults out.old < 2 ^ 64 - 1 }
    ensures flow { (stock : ListOf Filed) → F.files files.old ≡ Some stock → (fails : Option ℕ) → Comes fails progress.new.fetched → (r : Run) → IsAt (C.stands progress.old.carrier) progress.old r → (ends : Bool) (more : ListOf ℕ) → MayFollow cutter.old.closed ends more →
        FlowsTo (C.stands progress.new.carrier) progress.new (O.written out.old) (O.written out.new) fails
        (cuts_run whole_stage (inner_of fails stock depth) fails stock source.now (left_behind cutter.old.closed (cuts_with cutter.new ends more)))
        (cuts_run whole_stage (inner_of fails stock depth) fails stock source.now (cuts_with cutter.old ends more) r) result }
    ensures waits { Waits cutter.old.closed (cuts_with cutter.new false []) result }
    ensures fed { cutter.new.fed ≡ cutter.old.fed }
    ensures closed { cutter.new.closed ≡ cutter.old.closed }
    ensures ready { IsReadyFlow (C.ready progress.new.carrier) result }
    ensures fetched { Fetched progress.old.fetched progress.new.fetched (F.fetched files.old) (F.fetched files.new) }
    ensures stock { F.files files.new ≡ F.files files.old }
    ensures shelf { ShelfCause (F.faults files.old) (F.faults files.new) result }
    ensures sink { SinkCause (O.faults out.old) (O.faults out.new) result }
{
    'commands: loop {
        match next_turn(alloc, depth, cutter, source, progress, files, out) {
            Ok(Turn::Last(flow)) => return Ok(flow),
            Ok(Turn::Took(Step::Goes)) => {}
            Ok(Turn::Took(Step::Ends(end))) => return Ok(Flow::Ends(end)),
            Ok(Turn::Took(Step::Opens(file))) => {
                let mut inside = match fed_cutter(alloc, file.bytes.as_slice()) {
                    Ok(inside) => inside,
                    Err(_) => return Err(Fault::NoMemory),
                };
                match obey_fed(
                    alloc,
                    depth - 1,
                    file.name.as_str(),
                    &mut inside,
                    progress,
                    files,
                    out,
                ) {
                    Ok(Flow::Goes) => {}
                    Ok(Flow::Ends(end)) => return Ok(Flow::Ends(end)),
                    Err(fault) => return Err(fault),
                }
            }
            Err(fault) => return Err(fault),
        }
    }
}

/// A cutter that was fed all the bytes of a stream.
fn fed_cutter(alloc: Global, bytes: &[u8]) -> Result<Cutter, NoMemory>
    requires { length bytes.now < 2 ^ 63 }
    ensures cuts { IfOk result (λ cutter. cuts_with cutter true [] ≡ cuts_of true bytes.now) }
    ensures closed { IfOk result (λ cutter. cutter.closed ≡ true) }
{
    let mut cutter = Cutter::new(alloc)?;
    cutter.feed(bytes)?;
    cutter.close();
    Ok(cutter)
}

// Cycles in a row, and what each says.
ghost use Rattle.std.specs.Prelude.{◌≡◌, ◌-◌, ◌<◌, ◌^◌, true, Ok, List as ListOf, IfOk, OnOk};
ghost use Rattle.soar_edge.specs.Outside.{Appends, AppendsSome, HasPutCause};
ghost use Rattle.defs_soar.specs.History.{RecordedFiring};
ghost use Rattle.soar_agent.specs.Running.{run_learning};
ghost use Rattle.command_runs.specs.Carrying.{IsReadyAfter};
ghost use Rattle.soar_agent.specs.Remembers.{Remembers};
ghost use Rattle.soar_agent.specs.Seen.{agent_of};
ghost use Rattle.soar_run.specs.Cycles.{IsRanOk, WritesCycle, course_text, cycle_of};
ghost use Rattle.soar_run.specs.Ready.{IsReadySession};

use command_runs::{Answered, Next};
use outstanding::Outstanding;
use soar_agent::{Session, Stop};
use soar_edge::{PutFault, Sink, put_all};
use soar_sym::Text;
use std::alloc::Global;

/// Runs so many cycles, or until the agent is halted, and writes what each says.
pub fn run_cycles<M: Outstanding, O: Sink>(
    alloc: Global,
    session: &mut Session<M>,
    count: u32,
    out: &mut O,
) -> Result<Answered, PutFault>
    requires ready { IsReadySession session.old }
    requires sink { O.faults out.old < 2 ^ 64 - 1 }
    ensures course { (history : ListOf RecordedFiring) → Remembers session.old.agent.parts history → IsRanOk session.old.agent.parts.settings.watch session.old.agent.mid_line (run_learning count (agent_of session.old.agent.parts history)) session.old session.new result }
    ensures written { (history : ListOf RecordedFiring) → Remembers session.old.agent.parts history →
        OnOk result (Appends (O.written out.old) (O.written out.new) (course_text session.old.agent.parts.settings.watch session.old.agent.mid_line (run_learning count (agent_of session.old.agent.parts history)))) }
    ensures prefix { (history : ListOf RecordedFiring) → Remembers session.old.agent.parts history →
        AppendsSome (O.written out.old) (O.written out.new) (course_text session.old.agent.parts.settings.watch session.old.agent.mid_line (run_learning count (agent_of session.old.agent.parts history))) }
    ensures ready { IsReadyAfter (IsReadySession session.new) result }
    ensures cause { HasPutCause (O.faults out.old) (O.faults out.new) result }
{
    'cycles: for number in 0..count {
        if session.agent.halted() {
            return Ok(Answered::Went(false, Next::Command));
        }
        match write_cycle(alloc, session, out) {
            Ok(true) => {}
            Ok(false) => return Ok(Answered::Stopped),
            Err(fault) => return Err(fault),
        }
    }
    Ok(Answered::Went(false, Next::Command))
}

/// Runs a cycle, and writes what it says. False where it passes a limit.
fn write_cycle<M: Outstanding, O: Sink>(
    alloc: Global,
    session: &mut Session<M>,
    out: &mut O,
) -> Result<bool, PutFault>
    requires ready { IsReadySession session.old }
    requires sink { O.faults out.old < 2 ^ 64 - 1 }
    ensures course { (history : ListOf RecordedFiring) → Remembers session.old.agent.parts history →
        WritesCycle session.old.agent.parts.settings.watch session.old.agent.mid_line (cycle_of (agent_of session.old.agent.parts history)) session.new.agent (O.written out.old) (O.written out.new) result }
    ensures prefix { (history : ListOf RecordedFiring) → Remembers session.old.agent.parts history →
        AppendsSome (O.written out.old) (O.written out.new) (course_text session.old.agent.parts.settings.watch session.old.agent.mid_line (cycle_of (agent_of session.old.agent.parts history))) }
    ensures labels { session.new.labels ≡ session.old.labels }
    ensures settings { session.new.agent.parts.settings ≡ session.old.agent.parts.settings }
    ensures ready { result ≡ Ok true → IsReadySession session.new }
    ensures cause { HasPutCause (O.faults out.old) (O.faults out.new) result }
{
    let mut text = Text::new(alloc);
    match session.cycle(&mut text) {
        Ok(_) => put_cycle(out, &text, true),
        Err(Stop::Limit(limit)) => {
            let _ = limit;
            put_cycle(out, &text, false)
        }
        Err(Stop::NoMemory) => Err(PutFault::NoMemory),
    }
}

/// Writes what a cycle said, and gives whether it went.
fn put_cycle<O: Sink>(out: &mut O, text: &Text, went: bool) -> Result<bool, PutFault>
    requires { O.faults out.old < 2 ^ 64 - 1 }
    ensures went { IfOk result (λ given. given ≡ went) }
    ensures written { OnOk result (Appends (O.written out.old) (O.written out.new) text.now) }
    ensures prefix { AppendsSome (O.written out.old) (O.written out.new) text.now }
    ensures cause { HasPutCause (O.faults out.old) (O.faults out.new) result }
{
    put_all(out, text.as_str().as_bytes())?;
    Ok(went)
}

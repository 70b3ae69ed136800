// One command after another.
ghost use Rattle.std.specs.Prelude.{◌≡◌, ◌-◌, ◌<◌, ◌≤◌, ◌^◌, ℕ, [], Ok, List as ListOf, length, IfOk, OnOk};
ghost use Rattle.soar_edge.specs.Outside.{Appends, AppendsSome, HasPutCause};
ghost use Rattle.defs_run.specs.Whole.{whole_stage};
ghost use Rattle.defs_run.specs.Runs.{obeyed};
ghost use Rattle.defs_run.specs.Sessions.{Reply, Session as SessionOf, refused_by};
ghost use Rattle.command_runs.specs.Carrying.{IsReadyAfter, Refuses, Speaks, refusal_of};
ghost use Rattle.soar_agent.specs.Commands.{IsToldByCaller, Outcomes, refusal_told};
ghost use Rattle.soar_run.specs.Ready.{IsReadySession};
ghost use Rattle.soar_run.specs.Spoken.{StandsFor};

use crate::cycles::run_cycles;
use command_runs::{Answered, Next, Unread};
use outstanding::Outstanding;
use soar_agent::{Outcome, Session, Stop};
use soar_edge::{Command, PutFault, Sink, put_all};
use soar_sym::Text;
use std::alloc::Global;

/// Carries a command of a source out, and writes what it says.
pub fn answer_command<M: Outstanding, O: Sink>(
    alloc: Global,
    session: &mut Session<M>,
    command: &Command,
    source: &str,
    out: &mut O,
) -> Result<Answered, PutFault>
    requires short { length command.now.text ≤ 2 ^ 26 }
    requires ready { IsReadySession session.old }
    requires sink { O.faults out.old < 2 ^ 64 - 1 }
    ensures answer { (s : SessionOf) → StandsFor session.old s →
        Speaks (StandsFor session.new) s (obeyed whole_stage source.now command.now.line command.now.text s) (O.written out.old) (O.written out.new) result }
    ensures ready { IsReadyAfter (IsReadySession session.new) result }
    ensures cause { HasPutCause (O.faults out.old) (O.faults out.new) result }
{
    let mut text = Text::new(alloc);
    match session.command(command, source, &mut text) {
        Ok(outcome) => follow(alloc, session, outcome, &text, out),
        Err(Stop::Limit(limit)) => {
            let _ = limit;
            put_answer(out, &text, Answered::Stopped)
        }
        Err(Stop::NoMemory) => Err(PutFault::NoMemory),
    }
}

/// Writes what a command said, or runs the cycles that it asks for.
fn follow<M: Outstanding, O: Sink>(
    alloc: Global,
    session: &mut Session<M>,
    outcome: Outcome,
    text: &Text,
    out: &mut O,
) -> Result<Answered, PutFault>
    requires ready { IsReadySession session.old }
    requires sink { O.faults out.old < 2 ^ 64 - 1 }
    ensures answer { (s : SessionOf) (reply : Reply) → Outcomes s.agent.settings.watch s.mid_line reply session.old [] text.now (Ok outcome)
        → Speaks (StandsFor session.new) s reply (O.written out.old) (O.written out.new) result }
    ensures ready { IsReadyAfter (IsReadySession session.new) result }
    ensures cause { HasPutCause (O.faults out.old) (O.faults out.new) result }
{
    match outcome {
        Outcome::Done => put_answer(out, text, Answered::Went(false, Next::Command)),
        Outcome::Refused(_) => put_answer(out, text, Answered::Went(true, Next::Command)),
        Outcome::Run(count) => run_cycles(alloc, session, count, out),
        Outcome::Source(name) => put_answer(out, text, Answered::Went(false, Next::File(name))),
        Outcome::Quit => put_answer(out, text, Answered::Went(false, Next::End)),
    }
}

/// Writes what a command said, and gives how it went.
fn put_answer<O: Sink>(out: &mut O, text: &Text, answer: Answered) -> Result<Answered, PutFault>
    requires { O.faults out.old < 2 ^ 64 - 1 }
    ensures answer { IfOk result (λ given. given ≡ answer) }
    ensures written { OnOk result (Appends (O.written out.old) (O.written out.new) text.now) }
    ensures prefix { AppendsSome (O.written out.old) (O.written out.new) text.now }
    ensures cause { HasPutCause (O.faults out.old) (O.faults out.new) result }
{
    put_all(out, text.as_str().as_bytes())?;
    Ok(answer)
}

/// Refuses on a line of a source what is no command, and writes that.
pub fn refuse_told<M: Outstanding, O: Sink>(
    alloc: Global,
    session: &mut Session<M>,
    why: Unread,
    name: &str,
    source: &str,
    line: u64,
    out: &mut O,
) -> Result<(), PutFault>
    requires ready { IsReadySession session.old }
    requires sink { O.faults out.old < 2 ^ 64 - 1 }
    ensures answer { (s : SessionOf) → StandsFor session.old s →
        Refuses (StandsFor session.new) s (refused_by (refusal_of why name.now) source.now line s) (O.written out.old) (O.written out.new) result }
    ensures ready { IfOk result (λ _. IsReadySession session.new) }
    ensures cause { HasPutCause (O.faults out.old) (O.faults out.new) result }
{
    let mut text = Text::new(alloc);
    match session.refuse(number_of(why), source, line, name, &mut text) {
        Ok(()) => put_all(out, text.as_str().as_bytes()),
        Err(_) => Err(PutFault::NoMemory),
    }
}

/// The number of what is refused.
fn number_of(why: Unread) -> u32
    ensures told { IsToldByCaller result }
    ensures refusal { (name : ListOf ℕ) → refusal_told result name ≡ refusal_of why name }
{
    match why {
        Unread::Unfinished => 11,
        Unread::NoFile => 40,
        Unread::TooDeep => 41,
        Unread::TooMany => 42,
    }
}

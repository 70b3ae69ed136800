// A whole run, and how it ends.
ghost use Rattle.std.specs.Prelude.{◌≡◌, ◌≢◌, ◌⊎◌, ◌-◌, ◌^◌, ◌<◌, List as ListOf, ℕ, Some, None, IfSome};
ghost use Rattle.soar_edge.specs.Outside.{AppendsSome, Rose};
ghost use Rattle.soar_edge.specs.declared.filed.Filed.{Filed};
ghost use Rattle.defs_run.specs.CommandLine.{Options};
ghost use Rattle.command_runs.specs.Answers.{Answers, EndsAtFetch, EndsAtRead, IsComplete, IsLeft, IsTranscript, fault_status, told_status};
ghost use Rattle.command_runs.specs.Following.{status_of_end};
ghost use Rattle.command_runs.specs.Lengths.{IsTooLong};
ghost use Rattle.command_runs.specs.Whole.{IsAsked, front_run, whole_transcript};

use crate::carrier::Carrier;
use crate::course::obey_whole;
use crate::ends::{End, Flow, ended_by};
use crate::fault::{Broken, Fault};
use crate::progress::Progress;
use soar_edge::{Shelf, Sink, Source, Status};
use soar_sym::Text;
use std::alloc::Global;
use std::mem::forget;

/// Carries out a script of so many items, or else the files of a command line and then standard input, from the first
/// session on, and ends with how that went. The carrier's memory stays until the process ends: a run is the last that a
/// program does, and the system takes a large session back faster than it goes part by part.
pub fn run_whole<C: Carrier + Drop, I: Source, F: Shelf, O: Sink>(
    alloc: Global,
    generate: Option<u32>,
    names: &[Text],
    carrier: C,
    input: &mut I,
    files: &mut F,
    out: &mut O,
) -> Status
    requires ready { C.ready carrier }
    requires source { I.faults input.old < 2 ^ 64 - 1 }
    requires shelf { F.faults files.old < 2 ^ 64 - 1 }
    requires sink { O.faults out.old < 2 ^ 64 - 1 }
    ensures headline { IfSome (I.left input.old) (λ bytes. (stock : ListOf Filed) → F.files files.old ≡ Some stock → (o : Options) → IsAsked (C.stands carrier) o generate names.now
        → I.faults input.new ≡ I.faults input.old → F.faults files.new ≡ F.faults files.old → O.faults out.new ≡ O.faults out.old → result ≢ Status.NoMemory
        → IsTranscript (O.written out.old) (O.written out.new) result (whole_transcript None stock bytes o)) }
    ensures answers { IfSome (I.left input.old) (λ bytes. (stock : ListOf Filed) → F.files files.old ≡ Some stock → (o : Options) → IsAsked (C.stands carrier) o generate names.now
        → Answers (record { source = I.faults input.old; shelf = F.faults files.old; sink = O.faults out.old })
        (record { source = I.faults input.new; shelf = F.faults files.new; sink = O.faults out.new })
        bytes (I.left input.new) (IsLeft stock o bytes (I.left input.new)) (O.written out.old) (O.written out.new) (whole_transcript None stock bytes o) result) }
    ensures prefix { IfSome (I.left input.old) (λ bytes. (stock : ListOf Filed) → F.files files.old ≡ Some stock → (o : Options) → IsAsked (C.stands carrier) o generate names.now
        → AppendsSome (O.written out.old) (O.written out.new) (whole_transcript None stock bytes o).text) }
    ensures before_fetch { IfSome (I.left input.old) (λ bytes. (stock : ListOf Filed) → F.files files.old ≡ Some stock → (o : Options) → IsAsked (C.stands carrier) o generate names.now
        → (n : ℕ) → F.fetched files.old ≡ Some n → result ≡ Status.FileFault
        → EndsAtFetch (O.written out.old) (O.written out.new) n (F.fetched files.new) (λ number. whole_transcript (Some number) stock bytes o)) }
    ensures before_read { IfSome (I.left input.old) (λ bytes. (stock : ListOf Filed) → F.files files.old ≡ Some stock → (o : Options) → IsAsked (C.stands carrier) o generate names.now
        → result ≡ Status.ReadFault → (o.generate ≡ None) × EndsAtRead (O.written out.old) (O.written out.new) bytes (I.left input.new) (λ taken. front_run stock taken o)) }
    ensures too_long { IfSome (I.left input.old) (λ bytes. (stock : ListOf Filed) → F.files files.old ≡ Some stock → (o : Options) → IsAsked (C.stands carrier) o generate names.now
        → result ≡ Status.TooLong → IsTooLong o.generate stock bytes) }
    ensures complete { IfSome (I.left input.old) (λ bytes. (stock : ListOf Filed) → F.files files.old ≡ Some stock → (o : Options) → IsAsked (C.stands carrier) o generate names.now
        → (whole_transcript None stock bytes o).status ≢ Status.Limit → (whole_transcript None stock bytes o).status ≢ Status.TooLong
        → I.faults input.new ≡ I.faults input.old → F.faults files.new ≡ F.faults files.old → O.faults out.new ≡ O.faults out.old
        → IsComplete result) }
    ensures usage { result ≢ Status.Usage }
    ensures read { result ≡ Status.ReadFault → Rose (I.faults input.old) (I.faults input.new) }
    ensures write { result ≡ Status.WriteFault → Rose (O.faults out.old) (O.faults out.new) }
    ensures file { result ≡ Status.FileFault → Rose (F.faults files.old) (F.faults files.new) }
    ensures calm { result ≢ Status.ReadFault → result ≢ Status.WriteFault → result ≢ Status.FileFault
        → (I.faults input.new ≡ I.faults input.old) × (F.faults files.new ≡ F.faults files.old) × (O.faults out.new ≡ O.faults out.old) }
    ensures once { ((I.faults input.new ≡ I.faults input.old) × (F.faults files.new ≡ F.faults files.old))
        ⊎ ((I.faults input.new ≡ I.faults input.old) × (O.faults out.new ≡ O.faults out.old))
        ⊎ ((F.faults files.new ≡ F.faults files.old) × (O.faults out.new ≡ O.faults out.old)) }
{
    let mut progress = Progress {
        carrier,
        refused: false,
        fetched: 0,
    };
    let flow = obey_whole(alloc, generate, names, &mut progress, input, files, out);
    let status = status_of(flow, progress.refused);
    forget(progress);
    status
}

/// How a run ended whose commands were all carried out, or that ended before, or broke off.
fn status_of(flow: Result<Flow, Broken>, refused: bool) -> Status
    ensures { result ≡ told_status flow refused }
{
    match flow {
        Ok(Flow::Goes) => status_of_end(ended_by(refused)),
        Ok(Flow::Ends(end)) => status_of_end(end),
        Err(fault) => fault_status(fault),
    }
}

fn status_of_end(end: End) -> Status
    ensures { result ≡ status_of_end end }
{
    match end {
        End::Done => Status::Done,
        End::Refusals => Status::Refusals,
        End::TooLong => Status::TooLong,
        End::Limit => Status::Limit,
    }
}

/// The answer of a run that broke off.
fn fault_status(fault: Broken) -> Status
    ensures { result ≡ fault_status fault }
{
    match fault {
        Broken::Source => Status::ReadFault,
        Broken::Run(Fault::Shelf) => Status::FileFault,
        Broken::Run(Fault::Sink) => Status::WriteFault,
        Broken::Run(Fault::NoMemory) => Status::NoMemory,
    }
}

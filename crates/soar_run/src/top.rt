ghost use Rattle.std.specs.Prelude.{◌≡◌, ◌≢◌, ◌-◌, ◌^◌, ◌<◌, ℕ, [], List as ListOf, map, string_bytes, ◌⊎◌, Some, None, IfOk, IfSome, OnOk, option_map};
ghost use Rattle.soar_edge.specs.Outside.{Appends, AppendsSome, Rose, HasPutCause};
ghost use Rattle.soar_edge.specs.declared.filed.Filed.{Filed};
ghost use Rattle.defs_run.specs.CommandLine.{options_of};
ghost use Rattle.defs_run.specs.Whole.{whole_transcript};
ghost use Rattle.defs_run.specs.Transcripts.{usage_text};
ghost use Rattle.command_runs.specs.Answers.{Answers, EndsAtFetch, IsComplete, IsTranscript};
ghost use Rattle.command_runs.specs.Whole.{level_of};
ghost use Rattle.defs_run.specs.Sessions.{first_session};
ghost use Rattle.command_words.specs.Seen.{options_seen};
ghost use Rattle.soar_run.specs.Asked.{EndsAtReadBy, IsLeftBy, IsTooLongBy, usage_status};
ghost use Rattle.soar_run.specs.Failing.{failing_transcript};
ghost use Rattle.soar_run.specs.Ready.{IsReadySession};
ghost use Rattle.soar_run.specs.Spoken.{StandsFor};

use crate::speaker::{Speaker, first_speaker};
use command_runs::run_whole;
use command_words::{Options, read_options};
use outstanding::Followed;
use rete_net::Net;
use soar_edge::{PutFault, Shelf, Sink, Source, Status, put_all};
use soar_sym::NoMemory;
use std::alloc::Global;

/// The line for words that aren't of the form that is asked for.
const USAGE: &str = "usage: soar_app [--watch N] [--generate N] [FILE]...\n";

/// Runs the files that the words name and then the input, or a script in their place, and ends with how that went.
/// The session's memory stays until the process ends; a session whose memory goes with it is `soar_agent::Session`.
#[tactic(auto, unfolding(defs_run::specs::Whole::whole_transcript))]
pub fn run_soar<I: Source, F: Shelf, O: Sink>(
    alloc: Global,
    words: &Vec<String>,
    input: &mut I,
    files: &mut F,
    out: &mut O,
) -> Status
    requires source { I.faults input.old < 2 ^ 64 - 1 }
    requires shelf { F.faults files.old < 2 ^ 64 - 1 }
    requires sink { O.faults out.old < 2 ^ 64 - 1 }

    // Where nothing failed and memory sufficed, the bytes written and the status are the transcript's.
    ensures headline { IfSome (I.left input.old) (λ bytes. (stock : ListOf Filed) → F.files files.old ≡ Some stock
        → I.faults input.new ≡ I.faults input.old → F.faults files.new ≡ F.faults files.old → O.faults out.new ≡ O.faults out.old → result ≢ Status.NoMemory
        → IsTranscript (O.written out.old) (O.written out.new) result (whole_transcript (map string_bytes words.now.items) stock bytes)) }
    // Each answer has its cause.
    ensures answers { IfSome (I.left input.old) (λ bytes. (stock : ListOf Filed) → F.files files.old ≡ Some stock
        → Answers (record { source = I.faults input.old; shelf = F.faults files.old; sink = O.faults out.old })
        (record { source = I.faults input.new; shelf = F.faults files.new; sink = O.faults out.new })
        bytes (I.left input.new) (IsLeftBy (map string_bytes words.now.items) stock bytes (I.left input.new)) (O.written out.old) (O.written out.new) (whole_transcript (map string_bytes words.now.items) stock bytes) result) }
    // Whatever fails, the bytes written are those at the transcript's front.
    ensures prefix { IfSome (I.left input.old) (λ bytes. (stock : ListOf Filed) → F.files files.old ≡ Some stock
        → AppendsSome (O.written out.old) (O.written out.new) (whole_transcript (map string_bytes words.now.items) stock bytes).text) }
    // Where a fetch fails, all is written that comes before it.
    ensures before_fetch { IfSome (I.left input.old) (λ bytes. (stock : ListOf Filed) → F.files files.old ≡ Some stock → (n : ℕ) → F.fetched files.old ≡ Some n → result ≡ Status.FileFault
        → EndsAtFetch (O.written out.old) (O.written out.new) n (F.fetched files.new) (λ number. failing_transcript number (map string_bytes words.now.items) stock bytes)) }
    // Where a read fails, all is written that the files and the whole commands of what was taken until then write.
    ensures before_read { IfSome (I.left input.old) (λ bytes. (stock : ListOf Filed) → F.files files.old ≡ Some stock → result ≡ Status.ReadFault
        → EndsAtReadBy (map string_bytes words.now.items) stock (O.written out.old) (O.written out.new) bytes (I.left input.new)) }
    // Words of the form, and an input and files that reach no limit and are not too long, are carried out whole, unless memory runs out.
    ensures complete { IfSome (I.left input.old) (λ bytes. (stock : ListOf Filed) → F.files files.old ≡ Some stock
        → options_of (map string_bytes words.now.items) ≢ None → (whole_transcript (map string_bytes words.now.items) stock bytes).status ≢ Status.Limit
        → (whole_transcript (map string_bytes words.now.items) stock bytes).status ≢ Status.TooLong
        → I.faults input.new ≡ I.faults input.old → F.faults files.new ≡ F.faults files.old → O.faults out.new ≡ O.faults out.old
        → IsComplete result) }
    // A run ends as too long only where the input or a file has more than 64 MiB, or a command of them or of a script more than 1 MiB.
    ensures too_long { IfSome (I.left input.old) (λ bytes. (stock : ListOf Filed) → F.files files.old ≡ Some stock → result ≡ Status.TooLong → IsTooLongBy (map string_bytes words.now.items) stock bytes) }

    // These hold where nothing is told, too.
    ensures read { result ≡ Status.ReadFault → Rose (I.faults input.old) (I.faults input.new) }
    ensures write { result ≡ Status.WriteFault → Rose (O.faults out.old) (O.faults out.new) }
    ensures file { result ≡ Status.FileFault → Rose (F.faults files.old) (F.faults files.new) }
    ensures calm { result ≢ Status.ReadFault → result ≢ Status.WriteFault → result ≢ Status.FileFault
        → (I.faults input.new ≡ I.faults input.old) × (F.faults files.new ≡ F.faults files.old) × (O.faults out.new ≡ O.faults out.old) }
    ensures once { ((I.faults input.new ≡ I.faults input.old) × (F.faults files.new ≡ F.faults files.old))
        ⊎ ((I.faults input.new ≡ I.faults input.old) × (O.faults out.new ≡ O.faults out.old))
        ⊎ ((F.faults files.new ≡ F.faults files.old) × (O.faults out.new ≡ O.faults out.old)) }
{
    match begin(alloc, words) {
        Ok(Some(start)) => {
            let speaker = start.speaker;
            run_whole(
                alloc,
                start.options.generate,
                start.options.files.as_slice(),
                speaker,
                input,
                files,
                out,
            )
        }
        Ok(None) => status_of(write_usage(out)),
        Err(_) => Status::NoMemory,
    }
}

/// What the words ask for, and what carries it out.
#[derive(Drop)]
struct Start {
    options: Options,
    speaker: Speaker<Followed<Net>>,
}

/// Reads the words, and makes the session before the first command. None where the words aren't of the form.
fn begin(alloc: Global, words: &Vec<String>) -> Result<Option<Start>, NoMemory>
    ensures options { IfOk result (λ start. option_map (λ s. options_seen s.options) start ≡ options_of (map string_bytes words.now.items)) }
    ensures stands { IfOk result (λ start. IfSome start (λ s. StandsFor s.speaker.session (first_session (level_of s.options.watch)))) }
    ensures ready { IfOk result (λ start. IfSome start (λ s. IsReadySession s.speaker.session)) }
{
    match read_options(alloc, words)? {
        Some(options) => {
            let speaker = first_speaker(alloc, level_of(options.watch))?;
            Ok(Some(Start { options, speaker }))
        }
        None => Ok(None),
    }
}

/// The watch level, 1 where none is asked for.
fn level_of(watch: Option<u8>) -> u8
    ensures { result ≡ level_of watch }
{
    match watch {
        Some(level) => level,
        None => 1,
    }
}

fn write_usage<O: Sink>(out: &mut O) -> Result<(), PutFault>
    requires { O.faults out.old < 2 ^ 64 - 1 }
    ensures all { OnOk result (Appends (O.written out.old) (O.written out.new) usage_text) }
    ensures prefix { AppendsSome (O.written out.old) (O.written out.new) usage_text }
    ensures cause { HasPutCause (O.faults out.old) (O.faults out.new) result }
{
    put_all(out, USAGE.as_bytes())
}

/// How a run ends that writes the usage line alone.
fn status_of(written: Result<(), PutFault>) -> Status
    ensures { result ≡ usage_status written }
{
    match written {
        Ok(()) => Status::Usage,
        Err(PutFault::Failed) => Status::WriteFault,
        Err(PutFault::NoMemory) => Status::NoMemory,
    }
}

// A whole run: a script, or files and then standard input.
ghost use Rattle.std.specs.Prelude.{◌≡◌, ◌-◌, ◌^◌, ◌<◌, false, List as ListOf, ℕ, Option, Some, None, IfSome};
ghost use Rattle.soar_edge.specs.declared.filed.Filed.{Filed};
ghost use Rattle.defs_run.specs.Runs.{Run, then_run};
ghost use Rattle.command_runs.specs.Answers.{IsLeftAs, LeavesBy, StopsAtRead};
ghost use Rattle.command_runs.specs.Causes.{Caused, Fetched};
ghost use Rattle.command_runs.specs.Following.{Comes, IsAt, RunsWhole};
ghost use Rattle.command_runs.specs.Whole.{comes_along, commands_of, files_of, input_of, is_open, whole_run};

use crate::carrier::Carrier;
use crate::ends::Flow;
use crate::fault::Broken;
use crate::files::obey_files;
use crate::input::{obey_input, obey_script};
use crate::progress::Progress;
use soar_edge::{Shelf, Sink, Source};
use soar_sym::Text;
use std::alloc::Global;

/// Carries out a script of so many items, or else files and then standard input.
pub fn obey_whole<C: Carrier + Drop, I: Source, F: Shelf, O: Sink>(
    alloc: Global,
    generate: Option<u32>,
    names: &[Text],
    progress: &mut Progress<C>,
    input: &mut I,
    files: &mut F,
    out: &mut O,
) -> Result<Flow, Broken>
    requires ready { C.ready progress.old.carrier }
    requires source { I.faults input.old < 2 ^ 64 - 1 }
    requires shelf { F.faults files.old < 2 ^ 64 - 1 }
    requires sink { O.faults out.old < 2 ^ 64 - 1 }
    ensures flow { IfSome (I.left input.old) (λ bytes. (stock : ListOf Filed) → F.files files.old ≡ Some stock → (fails : Option ℕ) → Comes fails progress.new.fetched → (r : Run) → IsAt (C.stands progress.old.carrier) progress.old r →
        RunsWhole (C.stands progress.new.carrier) progress.new (O.written out.old) (O.written out.new) fails (whole_run fails stock bytes generate names.now r) result) }
    ensures left { IfSome (I.left input.old) (λ bytes. (stock : ListOf Filed) → F.files files.old ≡ Some stock → (r : Run) → IsAt (C.stands progress.old.carrier) progress.old r →
        LeavesBy (IsLeftAs (comes_along stock generate names.now r) (is_open (whole_run None stock bytes generate names.now r)) (λ taken. then_run (files_of None stock names.now r) (commands_of None stock false taken)) bytes (I.left input.new)) result) }
    ensures before_read { IfSome (I.left input.old) (λ bytes. (stock : ListOf Filed) → F.files files.old ≡ Some stock → (r : Run) → IsAt (C.stands progress.old.carrier) progress.old r →
        StopsAtRead generate (O.written out.old) (O.written out.new) bytes (I.left input.new) (λ taken. then_run (files_of None stock names.now r) (commands_of None stock false taken)) result) }
    ensures fetched { Fetched progress.old.fetched progress.new.fetched (F.fetched files.old) (F.fetched files.new) }
    ensures cause { Caused (record { source = I.faults input.old; shelf = F.faults files.old; sink = O.faults out.old })
        (record { source = I.faults input.new; shelf = F.faults files.new; sink = O.faults out.new }) result }
{
    match generate {
        Some(items) => match obey_script(alloc, items, progress, files, out) {
            Ok(flow) => Ok(flow),
            Err(fault) => Err(Broken::Run(fault)),
        },
        None => obey_all(alloc, names, progress, input, files, out),
    }
}

/// Carries out the commands of files, and then those of standard input.
fn obey_all<C: Carrier + Drop, I: Source, F: Shelf, O: Sink>(
    alloc: Global,
    names: &[Text],
    progress: &mut Progress<C>,
    input: &mut I,
    files: &mut F,
    out: &mut O,
) -> Result<Flow, Broken>
    requires ready { C.ready progress.old.carrier }
    requires source { I.faults input.old < 2 ^ 64 - 1 }
    requires shelf { F.faults files.old < 2 ^ 64 - 1 }
    requires sink { O.faults out.old < 2 ^ 64 - 1 }
    ensures flow { IfSome (I.left input.old) (λ bytes. (stock : ListOf Filed) → F.files files.old ≡ Some stock → (fails : Option ℕ) → Comes fails progress.new.fetched → (r : Run) → IsAt (C.stands progress.old.carrier) progress.old r →
        RunsWhole (C.stands progress.new.carrier) progress.new (O.written out.old) (O.written out.new) fails (then_run (files_of fails stock names.now r) (input_of fails stock bytes)) result) }
    ensures left { IfSome (I.left input.old) (λ bytes. (stock : ListOf Filed) → F.files files.old ≡ Some stock → (r : Run) → IsAt (C.stands progress.old.carrier) progress.old r →
        LeavesBy (IsLeftAs (is_open (files_of None stock names.now r)) (is_open (then_run (files_of None stock names.now r) (input_of None stock bytes))) (λ taken. then_run (files_of None stock names.now r) (commands_of None stock false taken)) bytes (I.left input.new)) result) }
    ensures before_read { IfSome (I.left input.old) (λ bytes. (stock : ListOf Filed) → F.files files.old ≡ Some stock → (r : Run) → IsAt (C.stands progress.old.carrier) progress.old r →
        StopsAtRead None (O.written out.old) (O.written out.new) bytes (I.left input.new) (λ taken. then_run (files_of None stock names.now r) (commands_of None stock false taken)) result) }
    ensures fetched { Fetched progress.old.fetched progress.new.fetched (F.fetched files.old) (F.fetched files.new) }
    ensures cause { Caused (record { source = I.faults input.old; shelf = F.faults files.old; sink = O.faults out.old })
        (record { source = I.faults input.new; shelf = F.faults files.new; sink = O.faults out.new }) result }
{
    match obey_files(alloc, names, progress, files, out) {
        Ok(Flow::Goes) => obey_input(alloc, progress, input, files, out),
        Ok(Flow::Ends(end)) => Ok(Flow::Ends(end)),
        Err(fault) => Err(Broken::Run(fault)),
    }
}

// Text that is appended.
ghost use Rattle.std.specs.Prelude.{◌≡◌, ◌+◌, ◌++◌, ◌<◌, ◌^◌, string_bytes, codes, OnOk, IfOk};
ghost use Rattle.std.specs.Fmt.{decimal};
ghost use Rattle.defs_run.specs.CommandLine.{item_label, next_line};

use soar_sym::{NoMemory, Text};
use std::alloc::Global;

/// The label of an item, as `<i7>`.
pub fn item_label(alloc: Global, item: u32) -> Result<String, NoMemory>
    ensures { IfOk result (λ text. string_bytes text ≡ item_label item) }
{
    Ok(format!(in alloc; "<i{item}>")?)
}

/// Appends a command with the link from an item to the next.
pub fn add_link(script: &mut Text, command: &str, item: u32) -> Result<(), NoMemory>
    requires { item + 1 < 2 ^ 32 }
    ensures { OnOk result (script.new ≡ script.old ++ next_line command.now item) }
{
    let alloc = script.allocator();
    let (label, next) = (item_label(alloc, item)?, item_label(alloc, item + 1)?);
    let (label, next) = (label.as_str(), next.as_str());
    let line = format!(in alloc; "{command}{label} ^next {next}\n")?;
    script.push_str(line.as_str())?;
    Ok(())
}

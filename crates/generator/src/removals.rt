// The commands that take every second link away.
ghost use Rattle.std.specs.Prelude.{◌≡◌, ◌++◌, ◌<◌, OnOk};
ghost use Rattle.defs_run.specs.CommandLine.{removal_text, removals_text};

use crate::text::add_link;
use soar_sym::{NoMemory, Text};

/// Appends the commands for all items.
pub fn add_removals(script: &mut Text, items: u32) -> Result<(), NoMemory>
    ensures { OnOk result (script.new ≡ script.old ++ removals_text items 0 items) }
{
    'items: for item in 0..items {
        add_removal(script, items, item)?;
    }
    Ok(())
}

/// Appends the command for an item with an even number, unless it is the last.
fn add_removal(script: &mut Text, items: u32, item: u32) -> Result<(), NoMemory>
    requires { item < items }
    ensures { OnOk result (script.new ≡ script.old ++ removal_text items item) }
{
    if item % 2 == 0 && item < items - 1 {
        add_link(script, "input remove ", item)?;
    }
    Ok(())
}

ghost use Rattle.std.specs.Prelude.{◌≡◌, IfOk};
ghost use Rattle.defs_run.specs.CommandLine.{script_of};

use crate::items::add_items;
use crate::removals::add_removals;
use soar_sym::{NoMemory, Text};
use std::alloc::Global;

/// How many items a script may have.
pub const MOST_ITEMS: u32 = 200_000;

/// The level, and the rules over the items.
const RULES: &str =
    "watch 0\nsp {gen*differ (state <s> ^item <i>) (<i> ^next <j>) (<j> ^kind <k>) -(<i> ^kind <k>) --> (<i> ^differs <j>)}\nsp {gen*last (state <s> ^item <i>) -(<i> ^next <j>) --> (<s> ^last <i>)}\n";

/// The script with so many items, one command a line.
pub fn script(alloc: Global, items: u32) -> Result<Text, NoMemory>
    ensures { IfOk result (λ script. script ≡ script_of items) }
{
    let mut script = Text::new(alloc);
    script.push_str(RULES)?;
    add_items(&mut script, items)?;
    script.push_str("run 1\n")?;
    add_removals(&mut script, items)?;
    script.push_str("run 1\nstats\n")?;
    Ok(script)
}

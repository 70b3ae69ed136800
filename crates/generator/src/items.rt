// The commands that add the items.
ghost use Rattle.std.specs.Prelude.{◌≡◌, ◌++◌, ◌<◌, string_bytes, IfOk, OnOk};
ghost use Rattle.defs_run.specs.CommandLine.{item_text, items_text};
ghost use Rattle.generator.specs.Items.{kind_text};

use crate::text::{add_link, item_label};
use soar_sym::{NoMemory, Text};
use std::alloc::Global;

/// Appends the commands of all items.
pub fn add_items(script: &mut Text, items: u32) -> Result<(), NoMemory>
    ensures { OnOk result (script.new ≡ script.old ++ items_text items 0 items) }
{
    'items: for item in 0..items {
        add_item(script, items, item)?;
    }
    Ok(())
}

/// Appends the commands of an item: it is there, it has a kind, and the next one behind it.
fn add_item(script: &mut Text, items: u32, item: u32) -> Result<(), NoMemory>
    requires { item < items }
    ensures { OnOk result (script.new ≡ script.old ++ item_text items item) }
{
    add_kind(script, item)?;
    if item < items - 1 {
        add_link(script, "input add ", item)?;
    }
    Ok(())
}

fn add_kind(script: &mut Text, item: u32) -> Result<(), NoMemory>
    ensures { OnOk result (script.new ≡ script.old ++ kind_text item) }
{
    let text = kind_text(script.allocator(), item)?;
    script.push_str(text.as_str())?;
    Ok(())
}

fn kind_text(alloc: Global, item: u32) -> Result<String, NoMemory>
    ensures { IfOk result (λ text. string_bytes text ≡ kind_text item) }
{
    let label = item_label(alloc, item)?;
    let (label, kind) = (label.as_str(), item % 3);
    Ok(format!(in alloc; "input add S1 ^item {label}\ninput add {label} ^kind {kind}\n")?)
}

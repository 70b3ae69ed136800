// The steps of an explanation as lines, and lines of elements and of preferences. Want of memory may leave a part of each.
ghost use Rattle.std.specs.Prelude.{◌≡◌, ◌++◌, OnOk};
ghost use Rattle.std.specs.List.{All};
ghost use Rattle.soar_sym.specs.Words.{IsKnown};
ghost use Rattle.soar_wm.specs.WorkingMemory.{triple_of};
ghost use Rattle.defs_soar.specs.History.{fire_step, firing_seen, step_seen};
ghost use Rattle.defs_soar.specs.Texts.{by_text, tagged_text, wish_text};
ghost use Rattle.trace_laws.specs.Events.{IsTripleKnown, IsWishKnown};
ghost use Rattle.chain_texts.specs.Lines.{marked_line, step_text, wishes_text};
ghost use Rattle.chain_texts.specs.Shown.{IsStepKnown};

use crate::numbered::numbered_text;
use crate::wish::show_wish;
use defs_soar::{Firing, Step, Wish};
use soar_show::show_element;
use soar_sym::{NoMemory, SymTable, Text};
use soar_wm::Element;

/// Appends the lines of a step.
pub fn push_step(out: &mut Text, table: &SymTable, step: &Step) -> Result<(), NoMemory>
    requires { IsStepKnown table.now (step_seen step.now) }
    ensures { OnOk result (out.new ≡ out.old ++ step_text table.now (step_seen step.now)) }
{
    match step {
        Step::Architecture(element) => push_element(out, table, "architecture ", element),
        Step::Item(element, tag) => push_naming(out, table, "item ", element, *tag),
        Step::Select(element, tag) => push_naming(out, table, "select ", element, *tag),
        Step::Fire(firing) => push_firing(out, table, firing),
    }
}

/// Appends an element behind a mark.
pub fn push_element(
    out: &mut Text,
    table: &SymTable,
    mark: &str,
    element: &Element,
) -> Result<(), NoMemory>
    requires { IsTripleKnown table.now (triple_of element.now) }
    ensures { OnOk result (out.new ≡ out.old ++ marked_line mark.now (tagged_text table.now element.now)) }
{
    out.push_str(mark)?;
    show_element(out, table, element)?;
    out.push_str("\n")?;
    Ok(())
}

/// Appends an element behind a mark, with the tag of the element that it names.
fn push_naming(
    out: &mut Text,
    table: &SymTable,
    mark: &str,
    element: &Element,
    tag: u32,
) -> Result<(), NoMemory>
    requires { IsTripleKnown table.now (triple_of element.now) }
    ensures { OnOk result (out.new ≡ out.old ++ marked_line mark.now (by_text table.now element.now tag)) }
{
    let tail = format!(in out.allocator(); " by {tag}\n")?;
    out.push_str(mark)?;
    show_element(out, table, element)?;
    out.push_str(tail.as_str())?;
    Ok(())
}

/// Appends the line of a firing, and under it the preferences that it made.
fn push_firing(out: &mut Text, table: &SymTable, firing: &Firing) -> Result<(), NoMemory>
    requires name { IsKnown table.now firing.now.name }
    requires made { All (IsWishKnown table.now) firing.now.made }
    ensures { OnOk result (out.new ≡ out.old ++ step_text table.now (fire_step (firing_seen firing.now))) }
{
    let line = numbered_text(
        out.allocator(),
        "fire ",
        table,
        firing.number,
        firing.name,
        &firing.instance,
    )?;
    out.push_str(line.as_str())?;
    out.push_str("\n")?;
    push_wishes(out, table, "  ", firing.made.as_slice())
}

/// Appends each preference behind a mark.
pub fn push_wishes(
    out: &mut Text,
    table: &SymTable,
    mark: &str,
    wishes: &[Wish],
) -> Result<(), NoMemory>
    requires { All (IsWishKnown table.now) wishes.now }
    ensures { OnOk result (out.new ≡ out.old ++ wishes_text table.now mark.now wishes.now) }
{
    'wishes: for wish in wishes {
        push_wish(out, table, mark, wish)?;
    }
    Ok(())
}

fn push_wish(out: &mut Text, table: &SymTable, mark: &str, wish: &Wish) -> Result<(), NoMemory>
    requires { IsWishKnown table.now wish.now }
    ensures { OnOk result (out.new ≡ out.old ++ marked_line mark.now (wish_text table.now wish.now)) }
{
    out.push_str(mark)?;
    show_wish(out, table, wish)?;
    out.push_str("\n")?;
    Ok(())
}

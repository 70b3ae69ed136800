// The lines of an element that went, and of one that came.
ghost use Rattle.std.specs.Prelude.{◌≡◌, ◌++◌, IfOk, OnErr, OnOk};
ghost use Rattle.soar_wm.specs.WorkingMemory.{triple_of};
ghost use Rattle.defs_soar.specs.Events.{comes, goes};
ghost use Rattle.defs_soar.specs.Texts.{tagged_text};
ghost use Rattle.chain_texts.specs.Events.{IsTripleKnown};
ghost use Rattle.trace_lines.specs.Saying.{SaysNothing};
ghost use Rattle.trace_details.specs.Details.{SaysAt};

use crate::level::{ELEMENTS, is_shown};
use crate::line::say_line;
use soar_sym::{NoMemory, SymTable, Text};
use soar_wm::Element;
use std::alloc::Global;
use trace_lines::show_element;

/// Appends the line of an element that went, as `- 6: (S1 ^a b)`.
pub fn say_gone(
    watch: u8,
    table: &SymTable,
    element: &Element,
    out: &mut Text,
    mid_line: &mut bool,
) -> Result<(), NoMemory>
    requires { IsTripleKnown table.now (triple_of element.now) }
    ensures ok { OnOk result (SaysAt watch table.now (goes element.now) mid_line.old out.old mid_line.new out.new) }
    ensures err { OnErr result (SaysNothing mid_line.old out.old mid_line.new out.new) }
{
    if !is_shown(watch, ELEMENTS) {
        return Ok(());
    }
    let text = marked_text(out.allocator(), "- ", table, element)?;
    say_line(out, mid_line, text.as_str())
}

/// Appends the line of an element that came, as `+ 7: (S1 ^operator O1 +)`.
pub fn say_new(
    watch: u8,
    table: &SymTable,
    element: &Element,
    out: &mut Text,
    mid_line: &mut bool,
) -> Result<(), NoMemory>
    requires { IsTripleKnown table.now (triple_of element.now) }
    ensures ok { OnOk result (SaysAt watch table.now (comes element.now) mid_line.old out.old mid_line.new out.new) }
    ensures err { OnErr result (SaysNothing mid_line.old out.old mid_line.new out.new) }
{
    if !is_shown(watch, ELEMENTS) {
        return Ok(());
    }
    let text = marked_text(out.allocator(), "+ ", table, element)?;
    say_line(out, mid_line, text.as_str())
}

/// An element behind a mark.
fn marked_text(
    alloc: Global,
    mark: &str,
    table: &SymTable,
    element: &Element,
) -> Result<Text, NoMemory>
    requires { IsTripleKnown table.now (triple_of element.now) }
    ensures { IfOk result (λ text. text ≡ mark.now ++ tagged_text table.now element.now) }
{
    let mut text = Text::from_str(alloc, mark)?;
    show_element(&mut text, table, element)?;
    Ok(text)
}

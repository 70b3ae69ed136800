// The elements of working memory.
ghost use Rattle.std.specs.Prelude.{◌≡◌, ◌++◌, false, map, OnErr, OnOk};
ghost use Rattle.soar_sym.specs.Words.{IsKnown};
ghost use Rattle.defs_soar.specs.Texts.{tagged_text};
ghost use Rattle.defs_soar.specs.Trace.{line_text};
ghost use Rattle.defs_run.specs.Listing.{element_lines};
ghost use Rattle.soar_settle.specs.Known.{AreElementsKnown};
ghost use Rattle.session_parts.specs.Saying.{Says};
ghost use Rattle.trace_lines.specs.Saying.{SaysNothing};

use crate::line::say_line;
use soar_show::show_element;
use soar_sym::{NoMemory, SymTable, Text};
use soar_wm::{Element, Memory};

/// Appends all elements by tag, one a line as `6: (S1 ^a b)`, or that there are none.
pub fn list_elements(
    table: &SymTable,
    memory: &Memory,
    out: &mut Text,
    mid_line: &mut bool,
) -> Result<(), NoMemory>
    requires { AreElementsKnown table.now memory.now.elements }
    ensures ok { OnOk result (Says (element_lines table.now memory.now.elements) mid_line.old out.old mid_line.new out.new) }
    ensures err { OnErr result (SaysNothing mid_line.old out.old mid_line.new out.new) }
{
    let elements = memory.all(out.allocator())?;
    list_tagged(table, elements.as_slice(), out, mid_line)
}

/// Appends elements in the order in which they stand.
fn list_tagged(
    table: &SymTable,
    elements: &[Element],
    out: &mut Text,
    mid_line: &mut bool,
) -> Result<(), NoMemory>
    requires { AreElementsKnown table.now elements.now }
    ensures ok { OnOk result (Says (element_lines table.now elements.now) mid_line.old out.old mid_line.new out.new) }
    ensures err { OnErr result (SaysNothing mid_line.old out.old mid_line.new out.new) }
{
    if elements.is_empty() {
        return say_line(out, mid_line, "no elements");
    }
    let mut said = Text::new(out.allocator());
    let mut mid_said = *mid_line;
    say_elements(table, elements, &mut said, &mut mid_said)?;
    out.push_str(said.as_str())?;
    *mid_line = mid_said;
    Ok(())
}

/// Appends elements, of which want of memory may leave some.
fn say_elements(
    table: &SymTable,
    elements: &[Element],
    out: &mut Text,
    mid_line: &mut bool,
) -> Result<(), NoMemory>
    requires { AreElementsKnown table.now elements.now }
    ensures { OnOk result (Says (map (tagged_text table.now) elements.now) mid_line.old out.old mid_line.new out.new) }
{
    'elements: for element in elements {
        say_element(table, element, out, mid_line)?;
    }
    Ok(())
}

fn say_element(
    table: &SymTable,
    element: &Element,
    out: &mut Text,
    mid_line: &mut bool,
) -> Result<(), NoMemory>
    requires id { IsKnown table.now element.now.id }
    requires attr { IsKnown table.now element.now.attr }
    requires value { IsKnown table.now element.now.value }
    ensures { OnOk result ((out.new ≡ out.old ++ line_text mid_line.old (tagged_text table.now element.now)) × (mid_line.new ≡ false)) }
{
    let mut text = Text::new(out.allocator());
    show_element(&mut text, table, element)?;
    say_line(out, mid_line, text.as_str())
}

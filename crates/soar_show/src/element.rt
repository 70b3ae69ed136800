ghost use Rattle.std.specs.Prelude.{◌≡◌, ◌++◌, codes, if◌then◌else◌, OnOk, OnErr};
ghost use Rattle.soar_sym.specs.Words.{IsKnown};
ghost use Rattle.soar_wm.specs.WorkingMemory.{triple_of};
ghost use Rattle.defs_soar.specs.Texts.{front_text, tagged_text, triple_text};

use crate::symbol::show_symbol;
use itoa::Buffer;
use soar_sym::{NoMemory, SymTable, Text};
use soar_wm::Element;
use std::alloc::AllocError;

/// Appends the text of an element: the tag, a colon, and the triple in brackets, with its mark where it is acceptable.
pub fn show_element(out: &mut Text, table: &SymTable, element: &Element) -> Result<(), NoMemory>
    requires id { IsKnown table.now element.now.id }
    requires attr { IsKnown table.now element.now.attr }
    requires value { IsKnown table.now element.now.value }
    ensures ok { OnOk result (out.new ≡ out.old ++ tagged_text table.now element.now) }
    ensures err { OnErr result (out.new ≡ out.old) }
{
    let mut text = Text::new(out.allocator());
    push_tagged(&mut text, table, element)?;
    out.push_str(text.as_str())?;
    Ok(())
}

fn push_tagged(out: &mut Text, table: &SymTable, element: &Element) -> Result<(), NoMemory>
    requires id { IsKnown table.now element.now.id }
    requires attr { IsKnown table.now element.now.attr }
    requires value { IsKnown table.now element.now.value }
    ensures { OnOk result (out.new ≡ out.old ++ tagged_text table.now element.now) }
{
    let mut buffer = Buffer::new();
    out.push_str(buffer.format(element.tag))?;
    out.push_str(": ")?;
    push_triple(out, table, element)
}

fn push_triple(out: &mut Text, table: &SymTable, element: &Element) -> Result<(), NoMemory>
    requires id { IsKnown table.now element.now.id }
    requires attr { IsKnown table.now element.now.attr }
    requires value { IsKnown table.now element.now.value }
    ensures { OnOk result (out.new ≡ out.old ++ triple_text table.now (triple_of element.now)) }
{
    out.push('(')?;
    push_front(out, table, element)?;
    push_end(out, element.accept)?;
    Ok(())
}

/// Appends the identifier, the attribute behind `^`, and the value.
fn push_front(out: &mut Text, table: &SymTable, element: &Element) -> Result<(), NoMemory>
    requires id { IsKnown table.now element.now.id }
    requires attr { IsKnown table.now element.now.attr }
    requires value { IsKnown table.now element.now.value }
    ensures { OnOk result (out.new ≡ out.old ++ front_text table.now element.now.id element.now.attr element.now.value) }
{
    show_symbol(out, table, element.id)?;
    out.push_str(" ^")?;
    show_symbol(out, table, element.attr)?;
    out.push(' ')?;
    show_symbol(out, table, element.value)
}

/// Appends the closing bracket, and the mark of an acceptable operator before it.
pub fn push_end(out: &mut Text, accept: bool) -> Result<(), AllocError>
    ensures { OnOk result (out.new ≡ out.old ++ (if accept then codes " +)" else codes ")")) }
{
    if accept {
        out.push_str(" +)")
    } else {
        out.push(')')
    }
}

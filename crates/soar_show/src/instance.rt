ghost use Rattle.std.specs.Prelude.{◌≡◌, ◌∷◌, ◌++◌, decimal, OnOk, OnErr};
ghost use Rattle.soar_sym.specs.Words.{IsKnown};
ghost use Rattle.defs_text.specs.Symbols.{instance_text, tags_text};

use crate::symbol::symbol_text;
use defs_soar::Instance;
use itoa::Buffer;
use soar_sym::{NoMemory, Sym, SymTable, Text};
use std::alloc::AllocError;

/// Appends the text of an instance of the rule of a name: the name, a colon, and the tags.
pub fn show_instance(
    out: &mut Text,
    table: &SymTable,
    instance: &Instance,
    name: Sym,
) -> Result<(), NoMemory>
    requires { IsKnown table.now name }
    ensures ok { OnOk result (out.new ≡ out.old ++ instance_text table.now name instance.now.tags) }
    ensures err { OnErr result (out.new ≡ out.old) }
{
    let mut text = symbol_text(out.allocator(), table, name)?;
    text.push(':')?;
    push_tags(&mut text, instance.tags.as_slice())?;
    out.push_str(text.as_str())?;
    Ok(())
}

/// Appends each tag behind a blank. Want of memory may leave a part of it.
pub fn push_tags(out: &mut Text, tags: &[u32]) -> Result<(), AllocError>
    ensures { OnOk result (out.new ≡ out.old ++ tags_text tags.now) }
{
    'tags: for tag in tags {
        push_tag(out, *tag)?;
    }
    Ok(())
}

fn push_tag(out: &mut Text, tag: u32) -> Result<(), AllocError>
    ensures { OnOk result (out.new ≡ out.old ++ (32 ∷ decimal tag)) }
{
    out.push(' ')?;
    let mut buffer = Buffer::new();
    out.push_str(buffer.format(tag))
}

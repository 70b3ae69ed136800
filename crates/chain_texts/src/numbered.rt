// Instances under a number.
ghost use Rattle.std.specs.Prelude.{◌≡◌, ◌∷◌, ◌++◌, decimal, string_bytes, IfOk};
ghost use Rattle.soar_sym.specs.Words.{IsKnown};
ghost use Rattle.defs_text.specs.Symbols.{instance_text};

use defs_soar::Instance;
use soar_show::show_instance;
use soar_sym::{NoMemory, Sym, SymTable, Text};
use std::alloc::Global;

/// A number behind a word, and behind a blank the instance of the rule of a name, as `fire 3 eval: 14 15`.
pub fn numbered_text(
    alloc: Global,
    word: &str,
    table: &SymTable,
    number: u64,
    name: Sym,
    instance: &Instance,
) -> Result<String, NoMemory>
    requires { IsKnown table.now name }
    ensures { IfOk result (λ text. string_bytes text ≡ word.now ++ (decimal number ++ (32 ∷ instance_text table.now name instance.now.tags))) }
{
    let instance = instance_text(alloc, table, name, instance)?;
    let instance = instance.as_str();
    Ok(format!(in alloc; "{word}{number} {instance}")?)
}

/// The name, a colon, and each tag.
fn instance_text(
    alloc: Global,
    table: &SymTable,
    name: Sym,
    instance: &Instance,
) -> Result<Text, NoMemory>
    requires { IsKnown table.now name }
    ensures { IfOk result (λ text. text ≡ instance_text table.now name instance.now.tags) }
{
    let mut text = Text::new(alloc);
    show_instance(&mut text, table, instance, name)?;
    Ok(text)
}

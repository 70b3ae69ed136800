// Symbols as texts of their own.
ghost use Rattle.std.specs.Prelude.{◌≡◌, IfOk};
ghost use Rattle.soar_sym.specs.Words.{IsKnown};
ghost use Rattle.defs_text.specs.Symbols.{symbol_text};

use soar_show::show_symbol;
use soar_sym::{NoMemory, Sym, SymTable, Text};
use std::alloc::Global;

pub fn symbol_text(alloc: Global, table: &SymTable, symbol: Sym) -> Result<Text, NoMemory>
    requires { IsKnown table.now symbol }
    ensures { IfOk result (λ text. text ≡ symbol_text table.now symbol) }
{
    let mut text = Text::new(alloc);
    show_symbol(&mut text, table, symbol)?;
    Ok(text)
}

// Symbols, triples, names and indentation as texts of their own.
ghost use Rattle.std.specs.Prelude.{◌≡◌, string_bytes, IfOk, IfSome};
ghost use Rattle.soar_sym.specs.Words.{IsKnown};
ghost use Rattle.defs_text.specs.Symbols.{symbol_text};
ghost use Rattle.defs_soar.specs.Texts.{triple_text};
ghost use Rattle.defs_soar.specs.Trace.{indent, name_text};
ghost use Rattle.trace_lines.specs.Saying.{IsTripleKnown};

use soar_show::show_symbol;
use soar_sym::{NoMemory, Sym, SymTable, Text, Triple};
use std::alloc::{AllocError, Global};

pub fn symbol_text(alloc: Global, table: &SymTable, symbol: Sym) -> Result<Text, NoMemory>
    requires { IsKnown table.now symbol }
    ensures { IfOk result (λ text. text ≡ symbol_text table.now symbol) }
{
    let mut text = Text::new(alloc);
    show_symbol(&mut text, table, symbol)?;
    Ok(text)
}

/// A name in brackets behind a blank, and nothing where there is none.
pub fn name_text(alloc: Global, table: &SymTable, name: Option<Sym>) -> Result<Text, NoMemory>
    requires { IfSome name (IsKnown table.now) }
    ensures { IfOk result (λ text. text ≡ name_text table.now name) }
{
    let mut text = Text::new(alloc);
    if let Some(name) = name {
        text.push_str(" (")?;
        show_symbol(&mut text, table, name)?;
        text.push_str(")")?;
    }
    Ok(text)
}

/// Two spaces for each goal below the top.
pub fn indent_text(alloc: Global, below: usize) -> Result<Text, AllocError>
    ensures { IfOk result (λ text. text ≡ indent below) }
{
    let mut text = Text::new(alloc);
    'goals: for _goal in 0..below {
        text.push_str("  ")?;
    }
    Ok(text)
}

/// A triple in brackets, with its mark where it is acceptable.
pub fn triple_text(alloc: Global, table: &SymTable, triple: Triple) -> Result<String, NoMemory>
    requires { IsTripleKnown table.now triple }
    ensures { IfOk result (λ text. string_bytes text ≡ triple_text table.now triple) }
{
    let id = symbol_text(alloc, table, triple.id)?;
    let attr = symbol_text(alloc, table, triple.attr)?;
    let value = symbol_text(alloc, table, triple.value)?;
    let (id, attr, value) = (id.as_str(), attr.as_str(), value.as_str());
    if triple.accept {
        Ok(format!(in alloc; "({id} ^{attr} {value} +)")?)
    } else {
        Ok(format!(in alloc; "({id} ^{attr} {value})")?)
    }
}

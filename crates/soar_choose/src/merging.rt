// Two lists of symbols in their order made one.
ghost use Rattle.std.specs.Prelude.{◌≡◌, ◌≤◌, ◌++◌, drop, length, IfOk, OnOk};
ghost use Rattle.soar_sym.specs.Words.{IsKnown};
ghost use Rattle.soar_choose.specs.Merging.{left, merged, moved};
ghost use Rattle.soar_choose.specs.Parts.{AreSymbolsKnown};

use soar_sym::{NoMemory, Sym, SymTable};
use std::alloc::Global;
use std::cmp::Ordering;

/// The symbols of both in their order, and one of two that are the same.
pub(crate) fn merged(
    alloc: Global,
    table: &SymTable,
    a: &[Sym],
    b: &[Sym],
) -> Result<Vec<Sym>, NoMemory>
    requires first { AreSymbolsKnown table.now a.now }
    requires second { AreSymbolsKnown table.now b.now }
    ensures { IfOk result (λ both. both.items ≡ merged table.now a.now b.now) }
{
    let mut out = Vec::new(alloc);
    let mut from = 0;
    'symbols: for symbol in a {
        from = add_before(table, &mut out, b, from, *symbol)?;
        out.push(*symbol)?;
    }
    let (_, rest) = b.split_at(from);
    out.extend_from_slice(rest)?;
    Ok(out)
}

/// Adds those that come before a symbol, and tells where those begin that come after it.
fn add_before(
    table: &SymTable,
    out: &mut Vec<Sym>,
    symbols: &[Sym],
    from: usize,
    symbol: Sym,
) -> Result<usize, NoMemory>
    requires all { AreSymbolsKnown table.now symbols.now }
    requires one { IsKnown table.now symbol }
    requires from { from ≤ length symbols.now }
    ensures within { IfOk result (λ at. at ≤ length symbols.now) }
    ensures moved { OnOk result (out.new.items ≡ out.old.items ++ moved table.now symbol (drop from symbols.now)) }
    ensures left { IfOk result (λ at. drop at symbols.now ≡ left table.now symbol (drop from symbols.now)) }
{
    'symbols: for at in from..symbols.len() {
        let other = symbols[at];
        match table.compare(symbol, other) {
            Ordering::Less => return Ok(at),
            Ordering::Equal => {}
            Ordering::Greater => out.push(other)?,
        }
    }
    Ok(symbols.len())
}

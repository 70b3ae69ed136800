// The name of an operator.
ghost use Rattle.std.specs.Prelude.{◌≡◌, IfOk, IfSome};
ghost use Rattle.std.specs.List.{All};
ghost use Rattle.defs_soar.specs.Decision.{first_symbol, names_of_operator};
ghost use Rattle.soar_sym.specs.Words.{IsKnown};
ghost use Rattle.trace_lines.specs.Names.{IsValueKnown, is_name_of, lesser};

use soar_sym::architecture::NAME;
use soar_sym::{NoMemory, Sym, SymTable, is_symbol};
use soar_wm::{Element, Memory};
use std::alloc::Global;

/// The least name of an operator in symbol order, where it has one: the values of its unmarked elements `^name`.
pub fn operator_name(
    alloc: Global,
    table: &SymTable,
    memory: &Memory,
    operator: Sym,
) -> Result<Option<Sym>, NoMemory>
    requires { All (IsValueKnown table.now) memory.now.elements }
    ensures name { IfOk result (λ name. name ≡ first_symbol (names_of_operator table.now memory.now.elements operator)) }
    ensures known { IfOk result (λ name. IfSome name (IsKnown table.now)) }
{
    let elements = memory.of_id(alloc, operator)?;
    Ok(least_name(table, elements.as_slice(), operator))
}

fn least_name(table: &SymTable, elements: &[Element], operator: Sym) -> Option<Sym>
    requires { All (IsValueKnown table.now) elements.now }
    ensures name { result ≡ first_symbol (names_of_operator table.now elements.now operator) }
    ensures known { IfSome result (IsKnown table.now) }
{
    let mut name = None;
    'elements: for at in (0..elements.len()).rev() {
        let element = elements[at];
        if is_name_of(operator, element) {
            name = Some(lesser(table, name, element.value));
        }
    }
    name
}

/// Whether the value of an element is a name of the operator.
fn is_name_of(operator: Sym, element: Element) -> bool
    ensures { result ≡ is_name_of operator element }
{
    is_symbol(element.id, operator) && is_symbol(element.attr, NAME) && !element.accept
}

/// The lesser of a symbol and one that may be there.
fn lesser(table: &SymTable, least: Option<Sym>, symbol: Sym) -> Sym
    requires least { IfSome least (IsKnown table.now) }
    requires symbol { IsKnown table.now symbol }
    ensures lesser { result ≡ lesser table.now least symbol }
    ensures known { IsKnown table.now result }
{
    match least {
        Some(least) if !table.compare(symbol, least).is_lt() => least,
        _ => symbol,
    }
}

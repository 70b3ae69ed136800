// One row or one element against the other side of a join.
ghost use Rattle.std.specs.Prelude.{◌≡◌, ◌++◌, OnOk, IfOk};
ghost use Rattle.defs_match.specs.Rows.{extend};
ghost use Rattle.defs_match.specs.Testing as meaning;
ghost use Rattle.join_parts.specs.Known.{known, known_constant, constants_of};
ghost use Rattle.node_memory.specs.Changes.{join, join_one};

use match_row::{Row, add_by_element, symbol_of};
use node_memory::ElementIndex;
use rete_alpha::ConstPattern;
use soar_rule::{Atom, Pattern, Test};
use soar_sym::{NoMemory, Sym};
use soar_wm::Element;
use std::alloc::Global;

/// The symbol that a field must be at these bindings, as far as its first test tells.
fn known(tests: &[Test], bindings: &[(u32, Sym)]) -> Option<Sym>
    ensures { result ≡ known tests.now bindings.now }
{
    match tests.first() {
        Some(Test::Plain(Atom::Const(constant))) => Some(*constant),
        Some(Test::Plain(Atom::Var(variable))) => symbol_of(*variable, bindings),
        _ => None,
    }
}

/// The constant that a field must be, as far as its first test tells.
fn known_constant(tests: &[Test]) -> Option<Sym>
    ensures { result ≡ known_constant tests.now }
{
    match tests.first() {
        Some(Test::Plain(Atom::Const(constant))) => Some(*constant),
        _ => None,
    }
}

/// The marks and the constants of a pattern: what its pattern memory goes by.
pub fn constants_of(p: &Pattern) -> ConstPattern
    ensures { result ≡ constants_of p.now }
{
    ConstPattern {
        state: p.state,
        id: known_constant(p.id.tests.as_slice()),
        attr: known_constant(p.attr.tests.as_slice()),
        value: known_constant(p.value.tests.as_slice()),
        accept: p.accept,
    }
}

/// Adds the rows that elements make of one row.
fn add_by_all(
    alloc: Global,
    p: &Pattern,
    row: &Row,
    elements: &[Element],
    out: &mut Vec<Row>,
) -> Result<(), NoMemory>
    ensures { OnOk result (out.new.items ≡ out.old.items ++ extend p.now elements.now row.now) }
{
    'elements: for element in elements {
        add_by_element(alloc, p, row, element, out)?;
    }
    Ok(())
}

/// The elements that can extend a row by a pattern: those of its identifier, where it is known, and then of its attribute and of
/// its value, where they are.
fn candidates(
    alloc: Global,
    p: &Pattern,
    index: &ElementIndex,
    row: &Row,
) -> Result<Vec<Element>, NoMemory>
    ensures { IfOk result (λ found. extend p.now found.items row.now ≡ extend p.now index.now row.now) }
{
    match known(p.id.tests.as_slice(), row.bindings()) {
        Some(id) => {
            let attr = known(p.attr.tests.as_slice(), row.bindings());
            let value = known(p.value.tests.as_slice(), row.bindings());
            index.candidates(alloc, id, attr, value)
        }
        None => index.all(alloc),
    }
}

/// Adds the rows that a pattern makes of one row.
pub fn add_extended(
    alloc: Global,
    p: &Pattern,
    index: &ElementIndex,
    row: &Row,
    out: &mut Vec<Row>,
) -> Result<(), NoMemory>
    ensures { OnOk result (out.new.items ≡ out.old.items ++ extend p.now index.now row.now) }
{
    let found = candidates(alloc, p, index, row)?;
    add_by_all(alloc, p, row, found.as_slice(), out)
}

/// Adds the rows that a pattern makes of these rows.
pub fn add_all_extended(
    alloc: Global,
    p: &Pattern,
    index: &ElementIndex,
    rows: &[Row],
    out: &mut Vec<Row>,
) -> Result<(), NoMemory>
    ensures { OnOk result (out.new.items ≡ out.old.items ++ join p.now index.now rows.now) }
{
    'rows: for row in rows {
        add_extended(alloc, p, index, row, out)?;
    }
    Ok(())
}

/// Adds the rows that one element makes of these rows.
pub fn add_by_one(
    alloc: Global,
    p: &Pattern,
    rows: &[Row],
    element: &Element,
    out: &mut Vec<Row>,
) -> Result<(), NoMemory>
    ensures { OnOk result (out.new.items ≡ out.old.items ++ join_one p.now element.now rows.now) }
{
    'rows: for row in rows {
        add_by_element(alloc, p, row, element, out)?;
    }
    Ok(())
}

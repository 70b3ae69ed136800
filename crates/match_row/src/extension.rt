// The rows that conditions make of rows.
ghost use Rattle.std.specs.Prelude.{◌≡◌, [], ◌∷◌, ◌++◌, if◌then◌else◌, flat_map, length, IfOk, OnOk};
ghost use Rattle.soar_rule.specs.Conditions.{condition, conditions};
ghost use Rattle.defs_match.specs.Rows.{extend, only_without, rows, rows_with, rows_from};

use crate::row::Row;
use crate::taking::{add_taken, takes};
use soar_rule::{Cond, Pattern};
use soar_sym::NoMemory;
use soar_wm::Element;
use std::alloc::Global;

/// The rows of a production's conditions.
pub fn rows(alloc: Global, conds: &[Cond], elements: &[Element]) -> Result<Vec<Row>, NoMemory>
    ensures { IfOk result (λ r. r.items ≡ rows (conditions conds.now) elements.now) }
{
    let mut first = Vec::new(alloc);
    first.push(Row::empty(alloc))?;
    rows_from(alloc, conds, elements, first)
}

/// The rows of a list of conditions, from these rows.
#[cycle(conditions)]
pub fn rows_from(
    alloc: Global,
    conds: &[Cond],
    elements: &[Element],
    first: Vec<Row>,
) -> Result<Vec<Row>, NoMemory>
    ensures { IfOk result (λ r. r.items ≡ rows_from (conditions conds.now) elements.now first.items) }
{
    let mut rows = first;
    'conds: for cond in conds {
        rows = rows_by(alloc, cond, elements, rows)?;
    }
    Ok(rows)
}

/// The rows that one condition makes of these rows.
#[cycle(conditions)]
fn rows_by(
    alloc: Global,
    cond: &Cond,
    elements: &[Element],
    rows: Vec<Row>,
) -> Result<Vec<Row>, NoMemory>
    ensures { IfOk result (λ r. r.items ≡ flat_map (rows_with (condition cond.now) elements.now) rows.items) }
{
    let mut out = Vec::new(alloc);
    'rows: for row in rows {
        add_rows(alloc, cond, elements, row, &mut out)?;
    }
    Ok(out)
}

/// Adds the rows that one condition makes of one row.
#[cycle(conditions)]
fn add_rows(
    alloc: Global,
    cond: &Cond,
    elements: &[Element],
    row: Row,
    out: &mut Vec<Row>,
) -> Result<(), NoMemory>
    ensures { OnOk result (out.new.items ≡ out.old.items ++ rows_with (condition cond.now) elements.now row) }
{
    match cond {
        Cond::Pos(pattern) => add_extended(alloc, pattern, elements, &row, out),
        Cond::Neg(pattern) => {
            let found = takes_any(alloc, pattern, elements, &row)?;
            add_without(row, found, out)
        }
        Cond::Conj(inside) => {
            let mut first = Vec::new(alloc);
            first.push(row.copy(alloc)?)?;
            let found = rows_from(alloc, inside.as_slice(), elements, first)?;
            add_without(row, !found.is_empty(), out)
        }
    }
}

/// Adds the row where nothing was found.
fn add_without(row: Row, found: bool, out: &mut Vec<Row>) -> Result<(), NoMemory>
    ensures { OnOk result (out.new.items ≡ out.old.items ++ (if found then [] else row ∷ [])) }
{
    if !found {
        out.push(row)?;
    }
    Ok(())
}

/// Whether a pattern takes any element at the bindings of a row.
fn takes_any(
    alloc: Global,
    pattern: &Pattern,
    elements: &[Element],
    row: &Row,
) -> Result<bool, NoMemory>
    ensures { IfOk result (λ found. only_without row.now (extend pattern.now elements.now row.now) ≡ (if found then [] else row.now ∷ [])) }
{
    let mut bindings = Vec::from_slice(alloc, row.bindings())?;
    'elements: for element in elements {
        if takes(pattern, element, &mut bindings)? {
            return Ok(true);
        }
        bindings.truncate(row.bindings().len());
    }
    Ok(false)
}

/// Adds the rows that a pattern makes of one row.
pub fn add_extended(
    alloc: Global,
    pattern: &Pattern,
    elements: &[Element],
    row: &Row,
    out: &mut Vec<Row>,
) -> Result<(), NoMemory>
    ensures { OnOk result (out.new.items ≡ out.old.items ++ extend pattern.now elements.now row.now) }
{
    let mut bindings = Vec::from_slice(alloc, row.bindings())?;
    'elements: for element in elements {
        add_taken(alloc, pattern, element, row, &mut bindings, out)?;
    }
    Ok(())
}

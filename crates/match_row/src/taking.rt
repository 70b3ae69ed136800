// One element against a pattern.
ghost use Rattle.std.specs.Prelude.{◌≡◌, ◌&&◌, ◌++◌, IfOk, OnOk};
ghost use Rattle.defs_match.specs.Rows.{takes_marks, bindings_at, by_element};
ghost use Rattle.match_row.specs.Steps.{left, taken, constants_pass, Grows};

use crate::row::Row;
use crate::testing;
use soar_rule::Pattern;
use soar_sym::{NoMemory, Sym};
use soar_wm::Element;
use std::alloc::Global;

/// Whether a pattern takes an element. What its variables are bound to is added to the bindings, also where
/// it does not take it.
#[tactic(auto, using(crate::proofs::TakingLemmas::attr_differs, crate::proofs::TakingLemmas::value_differs))]
pub fn takes(
    pattern: &Pattern,
    element: &Element,
    bindings: &mut Vec<(u32, Sym)>,
) -> Result<bool, NoMemory>
    ensures taken { IfOk result (λ passed. taken pattern.now element.now bindings.old.items ≡ left passed bindings.new.items) }
    ensures grows { OnOk result (Grows bindings.old.items bindings.new.items) }
{
    if !takes_marks(pattern, element) {
        return Ok(false);
    }
    if !testing::constants_pass(pattern.attr.tests.as_slice(), &element.attr) {
        return Ok(false);
    }
    if !testing::constants_pass(pattern.value.tests.as_slice(), &element.value) {
        return Ok(false);
    }
    fields_pass(pattern, element, bindings)
}

/// Whether the element has the mark and the flag that the pattern asks for.
pub fn takes_marks(pattern: &Pattern, element: &Element) -> bool
    ensures { result ≡ takes_marks pattern.now element.now }
{
    pattern.accept == element.accept && (!pattern.state || element.of_state)
}

/// Whether identifier, attribute and value pass.
fn fields_pass(
    pattern: &Pattern,
    element: &Element,
    bindings: &mut Vec<(u32, Sym)>,
) -> Result<bool, NoMemory>
    ensures passed { IfOk result (λ passed. bindings_at pattern.now element.now bindings.old.items ≡ left passed bindings.new.items) }
    ensures grows { OnOk result (Grows bindings.old.items bindings.new.items) }
{
    if !testing::passes(pattern.id.tests.as_slice(), &element.id, bindings)? {
        return Ok(false);
    }
    if !testing::passes(pattern.attr.tests.as_slice(), &element.attr, bindings)? {
        return Ok(false);
    }
    testing::passes(pattern.value.tests.as_slice(), &element.value, bindings)
}

/// Adds the row with one element more, where a pattern takes it at the bindings of the row.
pub fn add_by_element(
    alloc: Global,
    pattern: &Pattern,
    row: &Row,
    element: &Element,
    out: &mut Vec<Row>,
) -> Result<(), NoMemory>
    ensures { OnOk result (out.new.items ≡ out.old.items ++ by_element pattern.now row.now element.now) }
{
    let mut bindings = Vec::from_slice(alloc, row.bindings())?;
    add_taken(alloc, pattern, element, row, &mut bindings, out)
}

/// Adds the row with one element more, where a pattern takes it at the bindings of the row, which are handed in and
/// given back.
pub fn add_taken(
    alloc: Global,
    pattern: &Pattern,
    element: &Element,
    row: &Row,
    bindings: &mut Vec<(u32, Sym)>,
    out: &mut Vec<Row>,
) -> Result<(), NoMemory>
    requires { bindings.old.items ≡ row.now.bindings }
    ensures rows { OnOk result (out.new.items ≡ out.old.items ++ by_element pattern.now row.now element.now) }
    ensures bindings { OnOk result (bindings.new.items ≡ bindings.old.items) }
{
    if takes(pattern, element, bindings)? {
        out.push(row.with(alloc, element.tag, bindings.as_slice())?)?;
    }
    bindings.truncate(row.bindings().len());
    Ok(())
}

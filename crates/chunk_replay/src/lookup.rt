// What variables stand for, looked up where they first stand.
ghost use Rattle.std.specs.Prelude.{◌≡◌, map};
ghost use Rattle.chunk_replay.specs.LookedUp.{field_symbol, is_plain_in, is_plain_test, known_at, of_tags, pattern_symbol, symbol_for, symbol_in, within};
ghost use Rattle.soar_rule.specs.Conditions.{condition};

use crate::elements::next_element;
use defs_soar::Used;
use soar_rule::{Atom, Cond, Pattern, Test};
use soar_sym::Sym;
use soar_wm::Element;

/// A field of a condition.
#[derive(Clone, Copy)]
pub enum Part {
    Id,
    Attr,
    Value,
}

/// The condition that is tested on an element, the conditions that passed before it, and the firing's elements, as used
/// and by tag.
#[derive(Drop)]
pub struct Known<'a> {
    pub conds: &'a [Cond],
    pub used: &'a [Used],
    pub tags: &'a [u32],
    pub pattern: &'a Pattern,
    pub element: Element,
}

/// The symbol of an atom at a field with these tests: by what stands before the field, or by the field itself.
pub fn symbol_for(
    known: &Known<'_>,
    part: Part,
    tests: &[Test],
    symbol: Sym,
    atom: Atom,
) -> Option<Sym>
    ensures { result ≡ symbol_for (within (known_at part (symbol_in (map condition known.now.conds.now) (of_tags known.now.used.now known.now.tags.now)) known.now.pattern.now known.now.element) tests.now symbol) atom }
{
    match atom {
        Atom::Const(constant) => Some(constant),
        Atom::Var(variable) => match symbol_before(known, part, variable) {
            Some(bound) => Some(bound),
            None => field_symbol(tests, symbol, variable),
        },
    }
}

/// What a variable stands for by what stands before a field.
pub fn symbol_before(known: &Known<'_>, part: Part, variable: u32) -> Option<Sym>
    ensures { result ≡ known_at part (symbol_in (map condition known.now.conds.now) (of_tags known.now.used.now known.now.tags.now)) known.now.pattern.now known.now.element variable }
{
    match part {
        Part::Id => symbol_of_conditions(known, variable),
        Part::Attr => symbol_with_id(known, variable),
        Part::Value => symbol_with_attr(known, variable),
    }
}

fn symbol_of_conditions(known: &Known<'_>, variable: u32) -> Option<Sym>
    ensures { result ≡ symbol_in (map condition known.now.conds.now) (of_tags known.now.used.now known.now.tags.now) variable }
{
    symbol_in(known.conds, known.used, known.tags, variable)
}

fn symbol_with_id(known: &Known<'_>, variable: u32) -> Option<Sym>
    ensures { result ≡ within (symbol_in (map condition known.now.conds.now) (of_tags known.now.used.now known.now.tags.now)) known.now.pattern.now.id.tests known.now.element.id variable }
{
    match symbol_of_conditions(known, variable) {
        Some(bound) => Some(bound),
        None => field_symbol(
            known.pattern.id.tests.as_slice(),
            known.element.id,
            variable,
        ),
    }
}

fn symbol_with_attr(known: &Known<'_>, variable: u32) -> Option<Sym>
    ensures { result ≡ known_at Part.Value (symbol_in (map condition known.now.conds.now) (of_tags known.now.used.now known.now.tags.now)) known.now.pattern.now known.now.element variable }
{
    match symbol_with_id(known, variable) {
        Some(bound) => Some(bound),
        None => field_symbol(
            known.pattern.attr.tests.as_slice(),
            known.element.attr,
            variable,
        ),
    }
}

/// What a variable stands for by conditions and their elements: where it first stands in a plain test.
fn symbol_in(conds: &[Cond], used: &[Used], tags: &[u32], variable: u32) -> Option<Sym>
    ensures { result ≡ symbol_in (map condition conds.now) (of_tags used.now tags.now) variable }
{
    let mut rest = tags;
    'conds: for cond in conds {
        match cond {
            Cond::Pos(pattern) => match next_element(used, rest) {
                Some((element, behind)) => {
                    if let Some(symbol) = pattern_symbol(pattern, element, variable) {
                        return Some(symbol);
                    }
                    rest = behind;
                }
                None => return None,
            },
            Cond::Neg(_) => {}
            Cond::Conj(_) => {}
        }
    }
    None
}

fn pattern_symbol(pattern: &Pattern, element: Element, variable: u32) -> Option<Sym>
    ensures { result ≡ pattern_symbol pattern.now element variable }
{
    if is_plain_in(pattern.id.tests.as_slice(), variable) {
        return Some(element.id);
    }
    if is_plain_in(pattern.attr.tests.as_slice(), variable) {
        return Some(element.attr);
    }
    field_symbol(pattern.value.tests.as_slice(), element.value, variable)
}

fn field_symbol(tests: &[Test], symbol: Sym, variable: u32) -> Option<Sym>
    ensures { result ≡ field_symbol tests.now symbol variable }
{
    if is_plain_in(tests, variable) {
        Some(symbol)
    } else {
        None
    }
}

fn is_plain_in(tests: &[Test], variable: u32) -> bool
    ensures { result ≡ is_plain_in variable tests.now }
{
    'tests: for test in tests {
        if is_plain_test(test, variable) {
            return true;
        }
    }
    false
}

fn is_plain_test(test: &Test, variable: u32) -> bool
    ensures { result ≡ is_plain_test variable test.now }
{
    match test {
        Test::Plain(Atom::Var(other)) => *other == variable,
        _ => false,
    }
}

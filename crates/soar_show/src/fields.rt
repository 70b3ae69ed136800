// Tests, fields and patterns as text.
ghost use Rattle.std.specs.Prelude.{◌≡◌, ◌++◌, [], codes, flat_map, if◌then◌else◌, map, OnOk};
ghost use Rattle.soar_rule.specs.Symbols.{constants_of_field, constants_of_pattern, constants_of_test};
ghost use Rattle.defs_text.specs.Symbols.{symbol_text};
ghost use Rattle.defs_read.specs.PrintingConditions.{is_state_test, pattern_text, relation_text, spaced, test_text, tests_text};
ghost use Rattle.soar_show.specs.Known.{Knows};
ghost use Rattle.soar_show.specs.Lines.{placed_text};

use crate::element::push_end;
use crate::names::{Names, push_atom};
use crate::symbol::push_symbol;
use soar_rule::{Atom, Field, Pattern, Relation, Test};
use soar_sym::{Sym, SymTable, Text, is_symbol};
use std::alloc::AllocError;

/// Where in a pattern a field stands. In front the word `state` would be read as the mark, so it stands in bars.
#[derive(Clone, Copy)]
enum Place {
    Front,
    Behind,
}

/// Appends a pattern in its brackets.
pub fn push_pattern(out: &mut Text, names: &Names<'_>, pattern: &Pattern) -> Result<(), AllocError>
    requires { Knows names.now.words (constants_of_pattern pattern.now) }
    ensures { OnOk result (out.new ≡ out.old ++ pattern_text names.now pattern.now) }
{
    out.push('(')?;
    push_mark(out, pattern.state)?;
    push_field(out, names, &pattern.id, Place::Front)?;
    out.push_str(" ^")?;
    push_field(out, names, &pattern.attr, Place::Behind)?;
    out.push(' ')?;
    push_field(out, names, &pattern.value, Place::Behind)?;
    push_end(out, pattern.accept)
}

/// Appends the mark of a pattern that takes only elements of a state.
fn push_mark(out: &mut Text, state: bool) -> Result<(), AllocError>
    ensures { OnOk result (out.new ≡ out.old ++ (if state then codes "state " else [])) }
{
    if state {
        out.push_str("state ")
    } else {
        Ok(())
    }
}

/// Appends a field: a test alone, or tests in braces.
fn push_field(
    out: &mut Text,
    names: &Names<'_>,
    field: &Field,
    place: Place,
) -> Result<(), AllocError>
    requires { Knows names.now.words (constants_of_field field.now) }
    ensures { OnOk result (out.new ≡ out.old ++ tests_text (map (placed_text place names.now) field.now.tests)) }
{
    match field.tests.as_slice() {
        [test] => push_placed(out, names, test, place),
        tests => push_braced(out, names, tests, place),
    }
}

fn push_braced(
    out: &mut Text,
    names: &Names<'_>,
    tests: &[Test],
    place: Place,
) -> Result<(), AllocError>
    requires { Knows names.now.words (flat_map constants_of_test tests.now) }
    ensures { OnOk result (out.new ≡ out.old ++ (codes "{" ++ (spaced (map (placed_text place names.now) tests.now) ++ codes " }"))) }
{
    out.push('{')?;
    push_tests(out, names, tests, place)?;
    out.push_str(" }")
}

/// Appends each test behind a blank.
fn push_tests(
    out: &mut Text,
    names: &Names<'_>,
    tests: &[Test],
    place: Place,
) -> Result<(), AllocError>
    requires { Knows names.now.words (flat_map constants_of_test tests.now) }
    ensures { OnOk result (out.new ≡ out.old ++ spaced (map (placed_text place names.now) tests.now)) }
{
    'tests: for test in tests {
        out.push(' ')?;
        push_placed(out, names, test, place)?;
    }
    Ok(())
}

/// Appends a test as it stands at its place.
fn push_placed(
    out: &mut Text,
    names: &Names<'_>,
    test: &Test,
    place: Place,
) -> Result<(), AllocError>
    requires { Knows names.now.words (constants_of_test test.now) }
    ensures { OnOk result (out.new ≡ out.old ++ placed_text place names.now test.now) }
{
    match place {
        Place::Front if is_state_test(test) => out.push_str("|state|"),
        _ => push_test(out, names, test),
    }
}

/// Whether a test asks for the word `state`.
fn is_state_test(test: &Test) -> bool
    ensures { result ≡ is_state_test test.now }
{
    match test {
        Test::Plain(Atom::Const(symbol)) => is_symbol(*symbol, Sym::Word(0)),
        _ => false,
    }
}

fn push_test(out: &mut Text, names: &Names<'_>, test: &Test) -> Result<(), AllocError>
    requires { Knows names.now.words (constants_of_test test.now) }
    ensures { OnOk result (out.new ≡ out.old ++ test_text names.now test.now) }
{
    match test {
        Test::Plain(atom) => push_atom(out, names, *atom),
        Test::Rel(relation, atom) => {
            out.push_str(relation_name(*relation))?;
            out.push(' ')?;
            push_atom(out, names, *atom)
        }
        Test::OneOf(symbols) => {
            out.push_str("<<")?;
            push_symbols(out, names.table, symbols.as_slice())?;
            out.push_str(" >>")
        }
    }
}

fn relation_name(relation: Relation) -> &'static str
    ensures { result.now ≡ relation_text relation }
{
    match relation {
        Relation::Differ => "<>",
        Relation::Less => "<",
        Relation::Greater => ">",
        Relation::AtMost => "<=",
        Relation::AtLeast => ">=",
        Relation::SameKind => "<=>",
    }
}

/// Appends each symbol behind a blank.
fn push_symbols(out: &mut Text, table: &SymTable, symbols: &[Sym]) -> Result<(), AllocError>
    requires { Knows table.now symbols.now }
    ensures { OnOk result (out.new ≡ out.old ++ spaced (map (symbol_text table.now) symbols.now)) }
{
    'symbols: for symbol in symbols {
        out.push(' ')?;
        push_symbol(out, table, *symbol)?;
    }
    Ok(())
}

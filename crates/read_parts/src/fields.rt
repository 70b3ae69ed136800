// The tests of fields.
ghost use Rattle.std.specs.Prelude.{◌≡◌, ◌∷◌, true, map, IfOk, OnOk};
ghost use Rattle.defs_read.specs.FieldExpansion.{atom_of, field_of, plain_field, symbol_of, test_by, test_by_sign, test_of, tests_of};
ghost use Rattle.defs_read.specs.FreshNames.{expanded};
ghost use Rattle.tree_parts.specs.Seen.{constant_seen, field_seen, simple_seen, single_seen};
ghost use Rattle.read_parts.specs.Naming.{are_kept, fresh_seen};

use crate::names::{Names, named};
use crate::source::Source;
use soar_rule::{Atom, Field, Relation, Test};
use soar_sym::{List, NoMemory, Sym};
use std::alloc::Global;
use tree_parts::{Constant, FieldTree, Simple, Single};

fn symbol(source: &Source<'_>, constant: Constant) -> Result<Sym, NoMemory>
    ensures { IfOk result (λ s. s ≡ symbol_of source.now.table.now (constant_seen source.now.table.now constant)) }
{
    match constant {
        Constant::Named(name, _) => source.word(name),
        Constant::Number(value) => Ok(Sym::Int(value)),
    }
}

/// The symbols of one constant or more.
fn symbols(source: &Source<'_>, first: Constant, others: &[Constant]) -> Result<List<Sym>, NoMemory>
    ensures { IfOk result (λ symbols. symbols ≡ symbol_of source.now.table.now (constant_seen source.now.table.now first) ∷ map (symbol_of source.now.table.now) (map (constant_seen source.now.table.now) others.now)) }
{
    let mut symbols = List::new(source.alloc);
    symbols.push(symbol(source, first)?)?;
    'others: for constant in others {
        symbols.push(symbol(source, *constant)?)?;
    }
    Ok(symbols)
}

/// A variable or a constant.
pub fn atom(source: &Source<'_>, names: &mut Names, single: Single) -> Result<Atom, NoMemory>
    requires { are_kept source.now names.old ≡ true }
    ensures atom { IfOk result (λ a. atom_of source.now.table.now (single_seen source.now.table.now single) (fresh_seen source.now names.old) ≡ expanded a (fresh_seen source.now names.new)) }
    ensures kept { OnOk result (are_kept source.now names.new ≡ true) }
{
    match single {
        Single::Variable(name) => named(source, names, name),
        Single::Constant(constant) => Ok(Atom::Const(symbol(source, constant)?)),
    }
}

/// A test behind the sign of a relation, by its place among the signs.
fn test_by_sign(sign: u8, atom: Atom) -> Test
    ensures { result ≡ test_by_sign sign atom }
{
    match sign {
        0 => Test::Rel(Relation::Less, atom),
        1 => Test::Rel(Relation::Greater, atom),
        2 => Test::Rel(Relation::AtMost, atom),
        3 => Test::Rel(Relation::AtLeast, atom),
        4 => Test::Rel(Relation::Differ, atom),
        5 => Test::Rel(Relation::SameKind, atom),
        _ => Test::Plain(atom),
    }
}

fn test_by(relation: Option<u8>, atom: Atom) -> Test
    ensures { result ≡ test_by relation atom }
{
    match relation {
        None => Test::Plain(atom),
        Some(sign) => test_by_sign(sign, atom),
    }
}

fn test(source: &Source<'_>, names: &mut Names, simple: &Simple) -> Result<Test, NoMemory>
    requires { are_kept source.now names.old ≡ true }
    ensures test { IfOk result (λ t. test_of source.now.table.now (simple_seen source.now.table.now simple.now) (fresh_seen source.now names.old) ≡ expanded t (fresh_seen source.now names.new)) }
    ensures kept { OnOk result (are_kept source.now names.new ≡ true) }
{
    match simple {
        Simple::OneOf(alternatives) => {
            let symbols = symbols(source, alternatives.first, alternatives.others.as_slice())?;
            Ok(Test::OneOf(symbols))
        }
        Simple::Tested(tested) => {
            let atom = atom(source, names, tested.single)?;
            Ok(test_by(tested.relation, atom))
        }
    }
}

/// One test or more.
fn tests(
    source: &Source<'_>,
    names: &mut Names,
    first: &Simple,
    others: &[Simple],
) -> Result<List<Test>, NoMemory>
    requires { are_kept source.now names.old ≡ true }
    ensures tests { IfOk result (λ ts. tests_of source.now.table.now (simple_seen source.now.table.now first.now ∷ map (simple_seen source.now.table.now) others.now) (fresh_seen source.now names.old) ≡ expanded ts (fresh_seen source.now names.new)) }
    ensures kept { OnOk result (are_kept source.now names.new ≡ true) }
{
    let mut tests = List::new(source.alloc);
    tests.push(test(source, names, first)?)?;
    'others: for simple in others {
        tests.push(test(source, names, simple)?)?;
    }
    Ok(tests)
}

/// The field of a tree.
pub fn field(source: &Source<'_>, names: &mut Names, tree: &FieldTree) -> Result<Field, NoMemory>
    requires { are_kept source.now names.old ≡ true }
    ensures field { IfOk result (λ f. field_of source.now.table.now (field_seen source.now.table.now tree.now) (fresh_seen source.now names.old) ≡ expanded f (fresh_seen source.now names.new)) }
    ensures kept { OnOk result (are_kept source.now names.new ≡ true) }
{
    match tree {
        FieldTree::Braced(braced) => {
            let tests = tests(source, names, &braced.first, braced.others.as_slice())?;
            Ok(Field { tests })
        }
        FieldTree::Single(simple) => {
            let tests = tests(source, names, simple, &[])?;
            Ok(Field { tests })
        }
    }
}

/// A field with one plain test.
pub fn plain_field(alloc: Global, atom: Atom) -> Result<Field, NoMemory>
    ensures { IfOk result (λ field. field ≡ plain_field atom) }
{
    let mut tests = List::new(alloc);
    tests.push(Test::Plain(atom))?;
    Ok(Field { tests })
}

// ---- copies

/// A copy of a field, in memory of its own.
pub fn copy_field(alloc: Global, field: &Field) -> Result<Field, NoMemory>
    ensures { IfOk result (λ copy. copy ≡ field.now) }
{
    let mut tests = List::new(alloc);
    'tests: for test in field.tests.as_slice() {
        tests.push(copy_test(alloc, test)?)?;
    }
    Ok(Field { tests })
}

fn copy_test(alloc: Global, test: &Test) -> Result<Test, NoMemory>
    ensures { IfOk result (λ copy. copy ≡ test.now) }
{
    match test {
        Test::Plain(atom) => Ok(Test::Plain(*atom)),
        Test::Rel(relation, atom) => Ok(Test::Rel(*relation, *atom)),
        Test::OneOf(symbols) => Ok(Test::OneOf(List::from_slice(alloc, symbols.as_slice())?)),
    }
}

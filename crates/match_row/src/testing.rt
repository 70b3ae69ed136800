// One symbol against the tests of a field.
ghost use Rattle.std.specs.Prelude.{◌≡◌, IfOk, OnOk};
ghost use Rattle.defs_match.specs.Testing as meaning;
ghost use Rattle.match_row.specs.Steps.{left, after_one, other_passes, constants_pass, Grows};

use soar_rule::{Atom, Relation, Test};
use soar_sym::{NoMemory, Sym, is_symbol};

/// Whether a symbol passes the tests of a field. What its variables are bound to is added to the bindings,
/// also where a test fails.
pub fn passes(
    tests: &[Test],
    symbol: &Sym,
    bindings: &mut Vec<(u32, Sym)>,
) -> Result<bool, NoMemory>
    ensures passed { IfOk result (λ passed. meaning.passes tests.now symbol.now bindings.old.items ≡ left passed bindings.new.items) }
    ensures grows { OnOk result (Grows bindings.old.items bindings.new.items) }
{
    if after_plain(tests, symbol, bindings)? {
        Ok(others_pass(tests, symbol, bindings.as_slice()))
    } else {
        Ok(false)
    }
}

/// Whether no constant of a field differs from the symbol.
pub fn constants_pass(tests: &[Test], symbol: &Sym) -> bool
    ensures { result ≡ constants_pass tests.now symbol.now }
{
    'tests: for test in tests {
        if let Test::Plain(Atom::Const(constant)) = test {
            if !is_symbol(*symbol, *constant) {
                return false;
            }
        }
    }
    true
}

/// The plain tests of a field.
fn after_plain(
    tests: &[Test],
    symbol: &Sym,
    bindings: &mut Vec<(u32, Sym)>,
) -> Result<bool, NoMemory>
    ensures passed { IfOk result (λ passed. meaning.after_plain tests.now symbol.now bindings.old.items ≡ left passed bindings.new.items) }
    ensures grows { OnOk result (Grows bindings.old.items bindings.new.items) }
{
    'tests: for test in tests {
        if !after_one(test, symbol, bindings)? {
            return Ok(false);
        }
    }
    Ok(true)
}

/// One plain test.
fn after_one(test: &Test, symbol: &Sym, bindings: &mut Vec<(u32, Sym)>) -> Result<bool, NoMemory>
    ensures passed { IfOk result (λ passed. after_one test.now symbol.now bindings.old.items ≡ left passed bindings.new.items) }
    ensures grows { OnOk result (Grows bindings.old.items bindings.new.items) }
{
    match test {
        Test::Plain(Atom::Const(constant)) => Ok(is_symbol(*symbol, *constant)),
        Test::Plain(Atom::Var(variable)) => bind(*variable, symbol, bindings),
        _ => Ok(true),
    }
}

/// Binds a variable that is free, or compares.
fn bind(variable: u32, symbol: &Sym, bindings: &mut Vec<(u32, Sym)>) -> Result<bool, NoMemory>
    ensures passed { IfOk result (λ passed. meaning.bind variable symbol.now bindings.old.items (meaning.symbol_of variable bindings.old.items) ≡ left passed bindings.new.items) }
    ensures grows { OnOk result (Grows bindings.old.items bindings.new.items) }
{
    match symbol_of(variable, bindings.as_slice()) {
        Some(bound) => Ok(is_symbol(*symbol, bound)),
        None => {
            bindings.push((variable, *symbol))?;
            Ok(true)
        }
    }
}

/// The tests of a field that are not plain.
fn others_pass(tests: &[Test], symbol: &Sym, bindings: &[(u32, Sym)]) -> bool
    ensures { result ≡ meaning.others_pass tests.now symbol.now bindings.now }
{
    'tests: for test in tests {
        if !other_passes(test, symbol, bindings) {
            return false;
        }
    }
    true
}

/// One test that is not plain.
fn other_passes(test: &Test, symbol: &Sym, bindings: &[(u32, Sym)]) -> bool
    ensures { result ≡ other_passes test.now symbol.now bindings.now }
{
    match test {
        Test::Plain(_) => true,
        Test::Rel(relation, atom) => match symbol_at(*atom, bindings) {
            Some(other) => stands(*relation, *symbol, other),
            None => false,
        },
        Test::OneOf(symbols) => contains_symbol(symbols.as_slice(), symbol),
    }
}

/// What a variable stands for.
pub fn symbol_of(variable: u32, bindings: &[(u32, Sym)]) -> Option<Sym>
    ensures { result ≡ meaning.symbol_of variable bindings.now }
{
    'bindings: for binding in bindings {
        if binding.0 == variable {
            return Some(binding.1);
        }
    }
    None
}

fn symbol_at(atom: Atom, bindings: &[(u32, Sym)]) -> Option<Sym>
    ensures { result ≡ meaning.symbol_at atom bindings.now }
{
    match atom {
        Atom::Const(constant) => Some(constant),
        Atom::Var(variable) => symbol_of(variable, bindings),
    }
}

/// Whether two symbols stand in a relation. Only integers are less or greater.
pub fn stands(relation: Relation, a: Sym, b: Sym) -> bool
    ensures { result ≡ meaning.stands relation a b }
{
    match relation {
        Relation::Differ => !is_symbol(a, b),
        Relation::SameKind => is_same_kind(a, b),
        Relation::Less => is_less(a, b),
        Relation::Greater => is_less(b, a),
        Relation::AtMost => is_at_most(a, b),
        Relation::AtLeast => is_at_most(b, a),
    }
}

fn is_less(a: Sym, b: Sym) -> bool
    ensures { result ≡ meaning.stands Relation.Less a b }
{
    match (a, b) {
        (Sym::Int(value), Sym::Int(other)) => value < other,
        _ => false,
    }
}

fn is_at_most(a: Sym, b: Sym) -> bool
    ensures { result ≡ meaning.stands Relation.AtMost a b }
{
    match (a, b) {
        (Sym::Int(value), Sym::Int(other)) => value <= other,
        _ => false,
    }
}

fn is_same_kind(a: Sym, b: Sym) -> bool
    ensures { result ≡ meaning.same_kind_of a b }
{
    match (a, b) {
        (Sym::Ident { .. }, Sym::Ident { .. }) => true,
        (Sym::Word(_), Sym::Word(_)) => true,
        (Sym::Int(_), Sym::Int(_)) => true,
        _ => false,
    }
}

/// Whether a symbol is in a list.
pub fn contains_symbol(symbols: &[Sym], symbol: &Sym) -> bool
    ensures { result ≡ meaning.contains_symbol symbols.now symbol.now }
{
    'symbols: for one in symbols {
        if is_symbol(*symbol, *one) {
            return true;
        }
    }
    false
}

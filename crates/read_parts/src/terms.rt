// Values of actions, and preferences.
ghost use Rattle.std.specs.Prelude.{◌≡◌, true, map, IfOk, OnOk};
ghost use Rattle.soar_rule.specs.Productions.{preference_seen, value_seen};
ghost use Rattle.defs_read.specs.ActionExpansion.{alone, preference_of, referring, value_of, values_of};
ghost use Rattle.defs_read.specs.FreshNames.{expanded};
ghost use Rattle.defs_read.specs.ReadingValues.{terms_of};
ghost use Rattle.tree_parts.specs.Seen.{term_seen, wish_seen};
ghost use Rattle.read_parts.specs.Expanding.{listed};
ghost use Rattle.read_parts.specs.Naming.{are_kept, fresh_seen};

use crate::fields::atom;
use crate::names::Names;
use crate::source::Source;
use soar_rule::{Pref, Value};
use soar_sym::{List, NoMemory};
use std::alloc::Global;
use tree_parts::{Term, WishTree};

/// The value of a term.
#[cycle(terms)]
pub fn value(source: &Source<'_>, names: &mut Names, term: &Term) -> Result<Value, NoMemory>
    requires { are_kept source.now names.old ≡ true }
    ensures value { IfOk result (λ v. value_of (term_seen source.now.table.now term.now) source.now.table.now (fresh_seen source.now names.old) ≡ expanded (value_seen v) (fresh_seen source.now names.new)) }
    ensures kept { OnOk result (are_kept source.now names.new ≡ true) }
{
    match term {
        Term::Single(single) => Ok(Value::Atom(atom(source, names, *single)?)),
        Term::Call(func, terms) => {
            let values = values(source, names, terms.as_slice())?;
            Ok(Value::Call(*func, values))
        }
    }
}

/// The values of terms, from left to right.
#[cycle(terms)]
pub fn values(
    source: &Source<'_>,
    names: &mut Names,
    terms: &[Term],
) -> Result<List<Value>, NoMemory>
    requires { are_kept source.now names.old ≡ true }
    ensures values { IfOk result (λ vs. listed (values_of (terms_of (map (term_seen source.now.table.now) terms.now)) source.now.table.now (fresh_seen source.now names.old)) ≡ expanded (map value_seen vs) (fresh_seen source.now names.new)) }
    ensures kept { OnOk result (are_kept source.now names.new ≡ true) }
{
    let mut values = List::new(source.alloc);
    'terms: for term in terms {
        values.push(value(source, names, term)?)?;
    }
    Ok(values)
}

// ---- preferences

/// `>`, `<` or `=` without a referent.
fn alone(sign: u8) -> Pref
    ensures { preference_seen result ≡ alone sign }
{
    match sign {
        0 => Pref::Worst,
        1 => Pref::Best,
        _ => Pref::Indifferent,
    }
}

/// `>`, `<` or `=` with a referent.
fn referring(sign: u8, referent: Value) -> Pref
    ensures { preference_seen result ≡ referring sign (value_seen referent) }
{
    match sign {
        0 => Pref::Worse(referent),
        1 => Pref::Better(referent),
        _ => Pref::IndifferentTo(referent),
    }
}

/// The preference of a wish.
pub fn preference(source: &Source<'_>, names: &mut Names, wish: &WishTree) -> Result<Pref, NoMemory>
    requires { are_kept source.now names.old ≡ true }
    ensures preference { IfOk result (λ p. preference_of source.now.table.now (wish_seen source.now.table.now wish.now) (fresh_seen source.now names.old) ≡ expanded (preference_seen p) (fresh_seen source.now names.new)) }
    ensures kept { OnOk result (are_kept source.now names.new ≡ true) }
{
    match wish {
        WishTree::Accepting => Ok(Pref::Accept),
        WishTree::Rejecting => Ok(Pref::Reject),
        WishTree::Requiring => Ok(Pref::Require),
        WishTree::Prohibiting => Ok(Pref::Prohibit),
        WishTree::Comparing(compared) => match &compared.referent {
            None => Ok(alone(compared.sign)),
            Some(term) => {
                let referent = value(source, names, term)?;
                Ok(referring(compared.sign, referent))
            }
        },
    }
}

// ---- copies

/// A copy of a value, in memory of its own.
#[cycle(copies)]
pub fn copy_value(alloc: Global, value: &Value) -> Result<Value, NoMemory>
    ensures { IfOk result (λ copy. copy ≡ value.now) }
{
    match value {
        Value::Atom(atom) => Ok(Value::Atom(*atom)),
        Value::Call(func, values) => Ok(Value::Call(*func, copy_values(alloc, values.as_slice())?)),
    }
}

#[cycle(copies)]
fn copy_values(alloc: Global, values: &[Value]) -> Result<List<Value>, NoMemory>
    ensures { IfOk result (λ copy. copy ≡ values.now) }
{
    let mut out = List::new(alloc);
    'values: for value in values {
        out.push(copy_value(alloc, value)?)?;
    }
    Ok(out)
}

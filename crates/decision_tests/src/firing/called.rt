// A rule whose only action has a function of so many ones.
ghost use Rattle.std.specs.Prelude.{◌≡◌, [], pos, IfOk, IsTrue};
ghost use Rattle.soar_rule.specs.Below.{value_below};
ghost use Rattle.soar_rule.specs.Productions.{production_seen, value_seen};
ghost use Rattle.soar_rule.specs.Symbols.{AreKnown, constants_of_value, symbols_of};
ghost use Rattle.soar_rule.specs.Variables.{bound_variables};
ghost use Rattle.soar_sym.specs.Words.{architecture};

use crate::firing::render::outcome;
use crate::firing::run::S1;
use defs_match::{Instance, Rule};
use defs_soar::Made;
use soar_fire::{FireFault, fire};
use soar_rule::{Action, Atom, Func, Kind, Pref, Production, Support, Value};
use soar_sym::{Letters, List, Sym, SymTable};
use std::alloc::{AllocError, Global};
use std::test::Fail;

fn one() -> Value
    ensures { result ≡ Value.Atom (Atom.Const (Sym.Int (pos 1))) }
{
    Value::Atom(Atom::Const(Sym::Int(1)))
}

/// A call with at most three ones.
fn called_with(alloc: Global, func: Func, count: usize) -> Result<Value, AllocError>
    ensures below { IfOk result (λ v. IsTrue (value_below 0 v)) }
    ensures known { IfOk result (λ v. AreKnown architecture (constants_of_value (value_seen v))) }
{
    match count {
        0 => Ok(Value::Call(func, List::new(alloc))),
        1 => Ok(Value::Call(func, List::from_vec(vec![in alloc; one()]?))),
        2 => Ok(Value::Call(func, List::from_vec(vec![in alloc; one(), one()]?))),
        _ => Ok(Value::Call(func, List::from_vec(vec![in alloc; one(), one(), one()]?))),
    }
}

/// The production that makes this value of S1.
fn production(alloc: Global, value: Value) -> Result<Production, AllocError>
    requires below { IsTrue (value_below 0 value) }
    requires known { AreKnown architecture (constants_of_value (value_seen value)) }
    ensures known { IfOk result (λ p. AreKnown architecture (symbols_of (production_seen p))) }
    ensures binds { IfOk result (λ p. bound_variables (production_seen p).conditions ≡ []) }
{
    let actions = List::from_vec(vec![in alloc;
        Action::Make {
            id: Atom::Const(S1),
            attr: Value::Atom(Atom::Const(Sym::Word(1))),
            value,
            pref: Pref::Accept,
        },
    ]?);
    Ok(Production {
        name: Sym::Word(1),
        doc: None,
        kind: Kind::User,
        support: Support::Unset,
        vars: List::new(alloc),
        conds: List::new(alloc),
        actions,
    })
}

/// The production that makes the call of S1.
fn making(alloc: Global, func: Func, count: usize) -> Result<Production, AllocError>
    ensures known { IfOk result (λ p. AreKnown architecture (symbols_of (production_seen p))) }
    ensures binds { IfOk result (λ p. bound_variables (production_seen p).conditions ≡ []) }
{
    let value = called_with(alloc, func, count)?;
    production(alloc, value)
}

fn fired_once(
    alloc: Global,
    table: &mut SymTable,
    production: Production,
) -> Result<Made, FireFault>
    requires known { AreKnown table.old (symbols_of (production_seen production)) }
    requires binds { bound_variables (production_seen production).conditions ≡ [] }
{
    let Ok(rule) = Rule::new(alloc, 1, production) else {
        return Err(FireFault::NoMemory);
    };
    let instance = Instance {
        rule: 1,
        tags: List::new(alloc),
        binds: List::new(alloc),
    };
    let goals = List::new(alloc);
    let mut letters = Letters::new();
    fire(alloc, table, &mut letters, &goals, &rule, &instance)
}

/// Whether the function gives what the text says.
pub fn gives_called(alloc: Global, func: Func, count: usize, wanted: &str) -> Result<bool, Fail> {
    let production = making(alloc, func, count)?;
    let mut table = SymTable::new(alloc)?;
    let made = fired_once(alloc, &mut table, production)?;
    let out = outcome(alloc, &table, &made)?;
    Ok(out.as_str() == wanted)
}

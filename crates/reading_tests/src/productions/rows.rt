// Conditions and actions as rows of bytes, in which each digit is the number of a variable or a word.
//
// `*061` is `(state <0> ^6 <1>)`, `+112` is `(<1> ^1 <2>)`, `-223` is `-(<2> ^2 <3>)`, and `!435` is
// `(<4> ^3 <> <5>)`. `0125+` is `(<0> ^1 (abs (abs <5>)))` with the preference `+`, and `010-+` has the word 1 as
// its value. The preferences are `+`, `-`, `!` and `<`, which is better than `<5>`.
ghost use Rattle.std.specs.Prelude.{◌≡◌, ◌<◌, [], ◌∷◌, IfOk, IsTrue};
ghost use Rattle.soar_rule.specs.Below.{action_below, actions_below, cond_below, conds_below, pattern_below, pref_below, test_below, value_below};

use soar_rule::{Action, Atom, Cond, Field, Func, Pattern, Pref, Relation, Test, Value};
use soar_sym::{List, NoMemory, Sym};
use std::alloc::Global;

pub fn digit(byte: u8) -> u32
    ensures { result < 10 }
{
    u32::from(byte.saturating_sub(b'0').min(9))
}

pub fn conds_of(alloc: Global, rows: &[[u8; 4]]) -> Result<List<Cond>, NoMemory>
    ensures { IfOk result (λ conds. IsTrue (conds_below 10 conds)) }
{
    let mut conds = List::new(alloc);
    'rows: for row in rows {
        conds.push(cond_of(alloc, *row)?)?;
    }
    Ok(conds)
}

fn cond_of(alloc: Global, row: [u8; 4]) -> Result<Cond, NoMemory>
    ensures { IfOk result (λ cond. IsTrue (cond_below 10 cond)) }
{
    let [sign, id, attr, value] = row;
    let mut pattern = pattern(alloc, digit(id), digit(attr), test_of(sign, digit(value)))?;
    pattern.state = sign == b'*';
    if sign == b'-' {
        Ok(Cond::Neg(pattern))
    } else {
        Ok(Cond::Pos(pattern))
    }
}

fn test_of(sign: u8, value: u32) -> Test
    requires { value < 10 }
    ensures { IsTrue (test_below 10 result) }
{
    if sign == b'!' {
        Test::Rel(Relation::Differ, Atom::Var(value))
    } else {
        Test::Plain(Atom::Var(value))
    }
}

/// A pattern with a variable, a word and this test.
pub fn pattern(alloc: Global, id: u32, attr: u32, value: Test) -> Result<Pattern, NoMemory>
    requires id { id < 10 }
    requires value { IsTrue (test_below 10 value) }
    ensures { IfOk result (λ pattern. IsTrue (pattern_below 10 pattern)) }
{
    let value = field(alloc, value)?;
    let id = field(alloc, Test::Plain(Atom::Var(id)))?;
    let attr = field(alloc, Test::Plain(Atom::Const(Sym::Word(attr))))?;
    Ok(Pattern {
        state: false,
        id,
        attr,
        value,
        accept: false,
    })
}

fn field(alloc: Global, test: Test) -> Result<Field, NoMemory>
    ensures { IfOk result (λ field. field ≡ record { tests = test ∷ [] }) }
{
    Ok(Field {
        tests: List::from_vec(vec![in alloc; test]?),
    })
}

pub fn actions_of(alloc: Global, rows: &[[u8; 5]]) -> Result<List<Action>, NoMemory>
    ensures { IfOk result (λ actions. IsTrue (actions_below 10 actions)) }
{
    let mut actions = List::new(alloc);
    'rows: for row in rows {
        actions.push(action_of(alloc, *row)?)?;
    }
    Ok(actions)
}

fn action_of(alloc: Global, row: [u8; 5]) -> Result<Action, NoMemory>
    ensures { IfOk result (λ action. IsTrue (action_below 10 action)) }
{
    let [id, attr, depth, value, pref] = row;
    Ok(Action::Make {
        id: Atom::Var(digit(id)),
        attr: Value::Atom(Atom::Const(Sym::Word(digit(attr)))),
        value: value_of(alloc, digit(depth), value)?,
        pref: pref_of(pref),
    })
}

fn value_of(alloc: Global, depth: u32, value: u8) -> Result<Value, NoMemory>
    ensures { IfOk result (λ v. IsTrue (value_below 10 v)) }
{
    if value == b'-' {
        return Ok(Value::Atom(Atom::Const(Sym::Word(1))));
    }
    nested(alloc, depth, digit(value))
}

/// Calls of `abs`, so many deep in one another.
fn nested(alloc: Global, depth: u32, variable: u32) -> Result<Value, NoMemory>
    requires { variable < 10 }
    ensures { IfOk result (λ v. IsTrue (value_below 10 v)) }
{
    let mut value = Value::Atom(Atom::Var(variable));
    'calls: for _ in 0..depth {
        value = Value::Call(Func::Abs, List::from_vec(vec![in alloc; value]?));
    }
    Ok(value)
}

fn pref_of(sign: u8) -> Pref
    ensures { IsTrue (pref_below 10 result) }
{
    match sign {
        b'-' => Pref::Reject,
        b'!' => Pref::Require,
        b'<' => Pref::Better(Value::Atom(Atom::Var(5))),
        _ => Pref::Accept,
    }
}

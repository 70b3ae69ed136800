// Rules from text.
//
// `+0a1` is the condition `(<0> ^a <1>)`, `s0a1` the same for states alone, `-0a1` its negation, and `!0a1` is
// `(<0> ^a <> <1>)`. `{0a1` begins the negation of a list, which goes on to the end of the rule. The attributes a to d
// are the words 24 to 27.
ghost use Rattle.std.specs.Prelude.{◌≡◌, ◌<◌, true, IfOk, IsTrue};
ghost use Rattle.soar_rule.specs.AsItStands.{can_be_matched};
ghost use Rattle.soar_rule.specs.Below.{cond_below, conds_below, field_below, pattern_below, test_below};
ghost use Rattle.soar_rule.specs.Productions.{production_seen};

use defs_match::Rule;
use rule_check::check;
use rule_laws::checked_is_in_order;
use soar_rule::{Atom, Cond, Field, Kind, Pattern, Production, Relation, Support, Test};
use soar_sym::{List, NoMemory, Sym};
use std::alloc::Global;
use std::test::Fail;

/// A rule whose conditions can be matched as they stand.
#[derive(Drop)]
pub struct Ready {
    pub rule: Rule,
    ghost matchable: { can_be_matched (production_seen rule.production) ≡ true },
}

/// The rules of these texts, numbered from 1.
pub fn rules_of(alloc: Global, texts: &[&str]) -> Result<Vec<Ready>, Fail> {
    let mut rules = Vec::new(alloc);
    for text in texts {
        let number = rules.len() as u64;
        rules.push(rule_of(alloc, number.saturating_add(1), text)?)?;
    }
    Ok(rules)
}

fn rule_of(alloc: Global, number: u64, text: &str) -> Result<Ready, Fail> {
    let production = Production {
        name: Sym::Word(0),
        doc: None,
        kind: Kind::User,
        support: Support::Unset,
        vars: List::from_slice(alloc, &[Sym::Word(1); 10])?,
        conds: conds_of(alloc, text)?,
        actions: List::new(alloc),
    };
    let production = check(alloc, &production)?;
    checked_is_in_order();
    Ok(Ready {
        rule: Rule::new(alloc, number, production)?,
    })
}

fn conds_of(alloc: Global, text: &str) -> Result<List<Cond>, NoMemory>
    ensures { IfOk result (λ conds. IsTrue (conds_below 10 conds)) }
{
    let mut conds = List::new(alloc);
    'rows: for row in text.split_whitespace().rev() {
        conds = in_front(alloc, row_of(row), conds)?;
    }
    Ok(conds)
}

fn row_of(text: &str) -> [u8; 4] {
    match text.as_bytes() {
        [sign, id, attr, value] => [*sign, *id, *attr, *value],
        _ => *b"+0a0",
    }
}

/// The condition of a row and these behind it: negated together, where the row begins so.
fn in_front(alloc: Global, row: [u8; 4], later: List<Cond>) -> Result<List<Cond>, NoMemory>
    requires { IsTrue (conds_below 10 later) }
    ensures { IfOk result (λ conds. IsTrue (conds_below 10 conds)) }
{
    let cond = cond_of(alloc, row)?;
    let mut conds = later.into_vec();
    conds.insert(0, cond)?;
    if row[0] == b'{' {
        let negation = conjunctive(List::from_vec(conds));
        conds = vec![in alloc; negation]?;
    }
    Ok(List::from_vec(conds))
}

fn conjunctive(inside: List<Cond>) -> Cond
    requires { IsTrue (conds_below 10 inside) }
    ensures { IsTrue (cond_below 10 result) }
{
    Cond::Conj(inside)
}

fn cond_of(alloc: Global, row: [u8; 4]) -> Result<Cond, NoMemory>
    ensures { IfOk result (λ cond. IsTrue (cond_below 10 cond)) }
{
    let pattern = pattern_of(alloc, row)?;
    if row[0] == b'-' {
        Ok(Cond::Neg(pattern))
    } else {
        Ok(Cond::Pos(pattern))
    }
}

fn pattern_of(alloc: Global, row: [u8; 4]) -> Result<Pattern, NoMemory>
    ensures { IfOk result (λ pattern. IsTrue (pattern_below 10 pattern)) }
{
    let [sign, id, attr, value] = row;
    Ok(Pattern {
        state: sign == b's',
        id: field(alloc, Test::Plain(Atom::Var(digit(id))))?,
        attr: field(alloc, Test::Plain(Atom::Const(attribute(attr))))?,
        value: field(alloc, value_test(sign, digit(value)))?,
        accept: false,
    })
}

fn value_test(sign: u8, variable: u32) -> Test
    requires { variable < 10 }
    ensures { IsTrue (test_below 10 result) }
{
    if sign == b'!' {
        Test::Rel(Relation::Differ, Atom::Var(variable))
    } else {
        Test::Plain(Atom::Var(variable))
    }
}

fn field(alloc: Global, test: Test) -> Result<Field, NoMemory>
    requires { IsTrue (test_below 10 test) }
    ensures { IfOk result (λ f. IsTrue (field_below 10 f)) }
{
    let tests = vec![in alloc; test]?;
    Ok(Field {
        tests: List::from_vec(tests),
    })
}

fn digit(byte: u8) -> u32
    ensures { result < 10 }
{
    u32::from(byte.saturating_sub(b'0').min(9))
}

pub fn attribute(letter: u8) -> Sym {
    Sym::Word(u32::from(letter.saturating_sub(b'a')) + 24)
}

// A rule with two conditions and one action, and the elements of an instance.
ghost use Rattle.std.specs.Prelude.{◌≡◌, ◌∷◌, [], length, IfOk, IsTrue};
ghost use Rattle.soar_rule.specs.Below.{actions_below, atom_below};
ghost use Rattle.soar_rule.specs.Variables.{bound_variables};
ghost use Rattle.defs_match.specs.Rules.{rule_seen};
ghost use Rattle.store_tests.specs.Takes.{takes};

use super::goals::{goals_of, symbol};
use defs_match::{Instance, Rule};
use defs_soar::Goal;
use soar_levels::{match_depth, operator_kind};
use soar_rule::{Action, Atom, Cond, Field, Kind, Pattern, Pref, Production, Support, Test, Value};
use soar_sym::architecture::OPERATOR;
use soar_sym::{List, NoMemory, Sym, Triple};
use soar_wm::Memory;
use std::alloc::Global;
use std::test::Fail;

/// Variable 4 is the state, variable 2 its operator and variable 3 its colour.
const STATE: Atom = Atom::Var(4);

const SELECTED: Atom = Atom::Var(2);

const VALUE: Atom = Atom::Var(3);

const COLOR: Sym = Sym::Word(25);

/// A working memory of the triples of these bytes, with tags from 1. The attribute of `o` is `operator`, and
/// of `+` it is that with the mark.
fn memory_of(alloc: Global, triples: &[(u8, u8, u8)]) -> Result<Memory, NoMemory> {
    let mut memory = Memory::new(alloc, 100, 0)?;
    for (id, attr, value) in triples {
        let triple = Triple {
            id: symbol(*id),
            attr: attribute(*attr),
            value: symbol(*value),
            accept: *attr == b'+',
        };
        if memory.add(triple, false).is_err() {
            return Err(NoMemory);
        }
    }
    Ok(memory)
}

fn attribute(name: u8) -> Sym {
    match name {
        b'o' | b'+' => OPERATOR,
        _ => COLOR,
    }
}

/// The field of one plain atom.
fn field(alloc: Global, atom: Atom) -> Result<Field, NoMemory>
    ensures { IfOk result (λ field. field.tests ≡ Test.Plain atom ∷ []) }
{
    let mut tests = List::new(alloc);
    tests.push(Test::Plain(atom))?;
    Ok(Field { tests })
}

/// A positive condition of three plain atoms.
fn takes(alloc: Global, id: Atom, attr: Sym, value: Atom) -> Result<Cond, NoMemory>
    ensures { IfOk result (λ cond. cond ≡ takes id attr value) }
{
    Ok(Cond::Pos(Pattern {
        state: false,
        id: field(alloc, id)?,
        attr: field(alloc, Atom::Const(attr))?,
        value: field(alloc, value)?,
        accept: false,
    }))
}

/// `(<state> ^operator <selected> ^color <value>)`
fn conditions(alloc: Global) -> Result<List<Cond>, NoMemory>
    ensures { IfOk result (λ conds. conds ≡ takes (Atom.Var 4) (Sym.Word 7) (Atom.Var 2) ∷ takes (Atom.Var 4) (Sym.Word 25) (Atom.Var 3) ∷ []) }
{
    let mut conds = List::new(alloc);
    conds.push(takes(alloc, STATE, OPERATOR, SELECTED)?)?;
    conds.push(takes(alloc, STATE, COLOR, VALUE)?)?;
    Ok(conds)
}

/// One action, which makes word 26 of an attribute.
fn action(alloc: Global, id: Atom, attr: Sym) -> Result<List<Action>, NoMemory>
    requires { IsTrue (atom_below 5 id) }
    ensures { IfOk result (λ actions. IsTrue (actions_below 5 actions)) }
{
    let mut actions = List::new(alloc);
    actions.push(Action::Make {
        id,
        attr: Value::Atom(Atom::Const(attr)),
        value: Value::Atom(Atom::Const(Sym::Word(26))),
        pref: Pref::Accept,
    })?;
    Ok(actions)
}

fn rule_of(alloc: Global, support: Support, id: Atom, attr: Sym) -> Result<Rule, NoMemory>
    requires { IsTrue (atom_below 5 id) }
    ensures { IfOk result (λ rule. length (bound_variables (rule_seen rule).production.conditions) ≡ 3) }
{
    let conds = conditions(alloc)?;
    let actions = action(alloc, id, attr)?;
    let vars = List::from_slice(alloc, &[Sym::Word(24); 5])?;
    let production = Production {
        name: Sym::Word(24),
        doc: None,
        kind: Kind::User,
        support,
        vars,
        conds,
        actions,
    };
    Rule::new(alloc, 1, production)
}

/// The elements that were matched, what the rule's operator stands for, and the goals.
#[derive(Clone, Copy)]
struct Case<'a> {
    tags: [u32; 3],
    operator: u8,
    goals: &'a [u8],
}

/// The three bindings of the rule: the state, the operator and the colour.
fn instance_of(alloc: Global, case: &Case<'_>) -> Result<Instance, NoMemory>
    ensures { IfOk result (λ instance. length instance.binds ≡ 3) }
{
    let binds = [symbol(b'S'), symbol(case.operator), symbol(b'A')];
    Ok(Instance {
        rule: 1,
        tags: List::from_slice(alloc, &case.tags)?,
        binds: List::from_slice(alloc, &binds)?,
    })
}

/// Whether a firing is of operator kind.
fn kind(
    alloc: Global,
    memory: &Memory,
    case: &Case<'_>,
    support: Support,
    id: Atom,
    attr: Sym,
) -> Result<bool, NoMemory>
    requires { IsTrue (atom_below 5 id) }
{
    let rule = rule_of(alloc, support, id, attr)?;
    let instance = instance_of(alloc, case)?;
    let goals = goals_of(alloc, case.goals)?;
    Ok(operator_kind(&rule, &instance, &goals, memory))
}

/// `(S1 ^operator O1)` and `(S1 ^color A1)`, tagged 1 and 2.
const APPLYING: [(u8, u8, u8); 2] = [(b'S', b'o', b'O'), (b'S', b'c', b'A')];

const APPLIED: Case<'static> = Case {
    tags: [1, 2, 1],
    operator: b'O',
    goals: &[b'S'],
};

/// Whether actions on something else than the operator apply it, and others do not.
fn actions_apply(alloc: Global) -> Result<bool, NoMemory> {
    let memory = memory_of(alloc, &APPLYING)?;
    Ok(
        kind(alloc, &memory, &APPLIED, Support::Unset, STATE, COLOR)?
            && !kind(alloc, &memory, &APPLIED, Support::Unset, SELECTED, COLOR)?
            && kind(alloc, &memory, &APPLIED, Support::Unset, VALUE, COLOR)?,
    )
}

#[test]
fn an_action_on_something_else_than_the_operator_applies_it(rt: HostRuntime) -> Result<(), Fail> {
    assert!(rt; actions_apply(rt.alloc())?);
    Ok(())
}

/// Preferences for operators of goals do not count, and A1 is no goal. A new identifier is not bound, and a
/// constant that is no test of the conditions neither.
fn others_do_not(alloc: Global) -> Result<bool, NoMemory> {
    let memory = memory_of(alloc, &APPLYING)?;
    Ok(
        !kind(alloc, &memory, &APPLIED, Support::Unset, STATE, OPERATOR)?
            && kind(alloc, &memory, &APPLIED, Support::Unset, VALUE, OPERATOR)?
            && !kind(
                alloc,
                &memory,
                &APPLIED,
                Support::Unset,
                Atom::Var(0),
                COLOR,
            )?
            && !kind(
                alloc,
                &memory,
                &APPLIED,
                Support::Unset,
                Atom::Const(symbol(b'S')),
                COLOR,
            )?,
    )
}

#[test]
fn operators_of_goals_and_what_is_not_bound_do_not_count(rt: HostRuntime) -> Result<(), Fail> {
    assert!(rt; others_do_not(rt.alloc())?);
    Ok(())
}

fn flags_decide(alloc: Global) -> Result<bool, NoMemory> {
    let memory = memory_of(alloc, &APPLYING)?;
    Ok(
        kind(alloc, &memory, &APPLIED, Support::Operator, SELECTED, COLOR)?
            && !kind(alloc, &memory, &APPLIED, Support::Instance, STATE, COLOR)?,
    )
}

#[test]
fn a_flag_decides(rt: HostRuntime) -> Result<(), Fail> {
    assert!(rt; flags_decide(rt.alloc())?);
    Ok(())
}

/// Each with the operator that the rule acts on, and whether the action applies another one.
const SELECTIONS: [([u32; 3], u8, bool); 8] = [
    // A marked element selects nothing.
    ([1, 1, 1], b'P', false),
    ([1, 2, 1], b'P', true),
    // Of two the one of the lower tag tells.
    ([3, 2, 1], b'O', false),
    ([3, 2, 1], b'P', true),
    // Nothing is selected at the second goal.
    ([2, 4, 1], b'P', false),
    ([2, 4, 5], b'P', false),
    ([2, 4, 5], b'O', true),
    // An element that is gone tells nothing.
    ([9, 9, 9], b'P', false),
];

fn are_selected(alloc: Global) -> Result<bool, NoMemory> {
    let memory = memory_of(
        alloc,
        &[
            (b'S', b'+', b'O'),
            (b'S', b'o', b'O'),
            (b'S', b'o', b'P'),
            (b'T', b'c', b'A'),
            (b'T', b'o', b'P'),
        ],
    )?;
    for (tags, operator, expected) in &SELECTIONS {
        let case = Case {
            tags: *tags,
            operator: *operator,
            goals: &[b'S', b'T'],
        };
        if kind(alloc, &memory, &case, Support::Unset, SELECTED, COLOR)? != *expected {
            return Ok(false);
        }
    }
    Ok(are_depths(goals_of(alloc, &[b'S', b'T'])?.as_slice(), &memory))
}

/// The deepest goal that an element is about is the match goal.
fn are_depths(goals: &[Goal], memory: &Memory) -> bool {
    match_depth(goals, memory, &[1, 2, 3]) == 1
        && match_depth(goals, memory, &[2, 4, 1]) == 2
        && match_depth(goals, memory, &[9]) == 0
}

#[test]
fn the_operator_is_the_selected_one_of_the_deepest_goal(rt: HostRuntime) -> Result<(), Fail> {
    assert!(rt; are_selected(rt.alloc())?);
    Ok(())
}

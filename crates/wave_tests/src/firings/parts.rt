// Two goals, an element of each, and a rule of operator kind without conditions.
ghost use Rattle.std.specs.Prelude.{◌≡◌, ◌∷◌, [], flat_map, map, pos, IfOk, IsTrue};
ghost use Rattle.soar_rule.specs.Below.{action_below, actions_below};
ghost use Rattle.soar_rule.specs.Productions.{accepts, action_seen, atom_value, makes, writes};
ghost use Rattle.soar_rule.specs.Symbols.{AreKnown, constants_of_action, symbols_of};
ghost use Rattle.soar_rule.specs.Variables.{bound_variables};
ghost use Rattle.soar_rule.specs.declared.cond.Atom.TheVariants.{Const as ConstOf};
ghost use Rattle.defs_match.specs.Rules.{rule_seen};
ghost use Rattle.defs_soar.specs.Goals.{goal_ids};
ghost use Rattle.soar_sym.specs.Words.{architecture};

use defs_match::{Instance, Rule};
use defs_soar::{Goal, Impasse};
use soar_rule::{Action, Atom, Kind, Pref, Production, Support, Value};
use soar_sym::architecture::{NAME, OPERATOR};
use soar_sym::{List, NoMemory, Sym, Triple};
use std::alloc::Global;

pub const S1: Sym = Sym::Ident {
    letter: b'S',
    number: 1,
};

pub const S2: Sym = Sym::Ident {
    letter: b'S',
    number: 2,
};

/// S1, and S2 below it.
pub fn goals(alloc: Global) -> Result<List<Goal>, NoMemory>
    ensures { IfOk result (λ goals. goal_ids goals ≡ Sym.Ident 83 1 ∷ Sym.Ident 83 2 ∷ []) }
{
    let mut goals = List::new(alloc);
    goals.push(goal(alloc, S1, Impasse::Top))?;
    goals.push(goal(alloc, S2, Impasse::StateNoChange))?;
    Ok(goals)
}

fn goal(alloc: Global, id: Sym, impasse: Impasse) -> Goal
    ensures { result.id ≡ id }
{
    Goal {
        id,
        impasse,
        items: List::new(alloc),
        selected: None,
    }
}

/// `(S1 ^name 7)` and `(S2 ^name 7)`, with the tags 12 and 13 behind the elements of the goals themselves.
pub const OTHERS: [Triple; 2] = [
    Triple {
        id: S1,
        attr: NAME,
        value: Sym::Int(7),
        accept: false,
    },
    Triple {
        id: S2,
        attr: NAME,
        value: Sym::Int(7),
        accept: false,
    },
];

/// The rule of number 1, which makes `(S1 ^name O1)`, `(S2 ^name O1)` and `(S2 ^operator O1)`, and writes 3.
pub fn rule(alloc: Global) -> Result<Rule, NoMemory>
    ensures number { IfOk result (λ rule. rule.number ≡ 1) }
    ensures binds { IfOk result (λ rule. bound_variables (rule_seen rule).production.conditions ≡ []) }
    ensures known { IfOk result (λ rule. AreKnown architecture (symbols_of (rule_seen rule).production)) }
{
    let production = Production {
        name: NAME,
        doc: None,
        kind: Kind::User,
        support: Support::Operator,
        vars: List::new(alloc),
        conds: List::new(alloc),
        actions: actions(alloc)?,
    };
    Rule::new(alloc, 1, production)
}

fn actions(alloc: Global) -> Result<List<Action>, NoMemory>
    ensures below { IfOk result (λ actions. IsTrue (actions_below 0 actions)) }
    ensures known { IfOk result (λ actions. AreKnown architecture (flat_map constants_of_action (map action_seen actions))) }
{
    let mut actions = List::new(alloc);
    actions.push(make(S1, NAME))?;
    actions.push(make(S2, NAME))?;
    actions.push(make(S2, OPERATOR))?;
    actions.push(write(alloc)?)?;
    Ok(actions)
}

/// Makes an element with the value O1.
fn make(id: Sym, attr: Sym) -> Action
    ensures below { IsTrue (action_below 0 result) }
    ensures seen { action_seen result ≡ makes (ConstOf id) (atom_value (ConstOf attr)) (atom_value (ConstOf (Sym.Ident 79 1))) accepts }
{
    let value = Sym::Ident {
        letter: b'O',
        number: 1,
    };
    Action::Make {
        id: Atom::Const(id),
        attr: Value::Atom(Atom::Const(attr)),
        value: Value::Atom(Atom::Const(value)),
        pref: Pref::Accept,
    }
}

fn write(alloc: Global) -> Result<Action, NoMemory>
    ensures below { IfOk result (λ action. IsTrue (action_below 0 action)) }
    ensures seen { IfOk result (λ action. action_seen action ≡ writes (atom_value (ConstOf (Sym.Int (pos 3))) ∷ [])) }
{
    let mut values = List::new(alloc);
    values.push(Value::Atom(Atom::Const(Sym::Int(3))))?;
    Ok(Action::Write(values))
}

/// An instance of the rule, with the element of a tag.
pub fn instance(alloc: Global, tag: u32) -> Result<Instance, NoMemory>
    ensures rule { IfOk result (λ instance. instance.rule ≡ 1) }
    ensures binds { IfOk result (λ instance. instance.binds ≡ []) }
{
    Ok(Instance {
        rule: 1,
        tags: List::from_slice(alloc, &[tag])?,
        binds: List::new(alloc),
    })
}

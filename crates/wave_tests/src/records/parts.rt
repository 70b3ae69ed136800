// Two goals, what is held below them, and a rule without conditions.
ghost use Rattle.std.specs.Prelude.{◌≡◌, ◌∷◌, [], IfOk, IsTrue};
ghost use Rattle.soar_rule.specs.Below.{actions_below};
ghost use Rattle.soar_rule.specs.Variables.{bound_variables};
ghost use Rattle.defs_match.specs.Rules.{rule_seen};
ghost use Rattle.defs_soar.specs.Goals.{goal_ids};

use defs_match::{Instance, Rule};
use defs_soar::{Goal, Impasse, Item, PrefKind, Preference, Selection, Wish};
use soar_prefs::Prefs;
use soar_rule::{Action, Atom, Kind, Pref, Production, Support, Value};
use soar_sym::{List, NoMemory, Sym, Triple};
use std::alloc::Global;

pub const COLOR: Sym = Sym::Word(24);

pub const S1: Sym = Sym::Ident {
    letter: b'S',
    number: 1,
};

pub const S2: Sym = Sym::Ident {
    letter: b'S',
    number: 2,
};

pub const S3: Sym = Sym::Ident {
    letter: b'S',
    number: 3,
};

pub const O1: Sym = Sym::Ident {
    letter: b'O',
    number: 1,
};

pub const O2: Sym = Sym::Ident {
    letter: b'O',
    number: 2,
};

/// S1, and S2 below it with the item O1 and the selected operator O2.
pub fn goals(alloc: Global) -> Result<List<Goal>, NoMemory>
    ensures { IfOk result (λ goals. goal_ids goals ≡ Sym.Ident 83 1 ∷ Sym.Ident 83 2 ∷ []) }
{
    let mut goals = List::new(alloc);
    goals.push(Goal {
        id: S1,
        impasse: Impasse::Top,
        items: List::new(alloc),
        selected: None,
    })?;
    goals.push(below(alloc)?)?;
    Ok(goals)
}

fn below(alloc: Global) -> Result<Goal, NoMemory>
    ensures { IfOk result (λ goal. goal.id ≡ Sym.Ident 83 2) }
{
    let items = List::from_slice(
        alloc,
        &[Item {
            value: O1,
            numeric: false,
            tag: 9,
        }],
    )?;
    Ok(Goal {
        id: S2,
        impasse: Impasse::Tie,
        items,
        selected: Some(Selection {
            operator: O2,
            tag: 8,
            maker: 6,
        }),
    })
}

/// What stands in working memory behind the elements of the goals themselves, which have the tags 1 to 16.
pub const OTHERS: [Triple; 2] = [
    Triple {
        id: S1,
        attr: COLOR,
        value: Sym::Int(1),
        accept: false,
    },
    Triple {
        id: S2,
        attr: COLOR,
        value: Sym::Int(1),
        accept: false,
    },
];

/// The firings of rows for colours of S2. Those of 1 and 2 make another colour, or make none.
const ROWS: [(u64, i64, PrefKind); 4] = [
    (7, 1, PrefKind::Accept),
    (4, 1, PrefKind::Accept),
    (1, 2, PrefKind::Accept),
    (2, 1, PrefKind::Require),
];

pub fn prefs(alloc: Global) -> Result<Prefs, NoMemory> {
    let mut prefs = Prefs::new(alloc, 100)?;
    for (firing, value, kind) in &ROWS {
        let row = Preference {
            firing: *firing,
            wish: Wish {
                id: S2,
                attr: COLOR,
                value: Sym::Int(*value),
                kind: *kind,
                referent: None,
            },
            operator_support: false,
        };
        if prefs.add(row).is_err() {
            return Err(NoMemory);
        }
    }
    Ok(prefs)
}

/// `(S2 ^color 1)`
fn actions(alloc: Global) -> Result<List<Action>, NoMemory>
    ensures { IfOk result (λ actions. IsTrue (actions_below 0 actions)) }
{
    let mut actions = List::new(alloc);
    actions.push(Action::Make {
        id: Atom::Const(S2),
        attr: Value::Atom(Atom::Const(COLOR)),
        value: Value::Atom(Atom::Const(Sym::Int(1))),
        pref: Pref::Accept,
    })?;
    Ok(actions)
}

/// A rule without conditions, which makes a colour of S2.
pub fn rule(alloc: Global) -> Result<Rule, NoMemory>
    ensures { IfOk result (λ rule. bound_variables (rule_seen rule).production.conditions ≡ []) }
{
    let actions = actions(alloc)?;
    let production = Production {
        name: Sym::Word(25),
        doc: None,
        kind: Kind::User,
        support: Support::Unset,
        vars: List::new(alloc),
        conds: List::new(alloc),
        actions,
    };
    Rule::new(alloc, 1, production)
}

pub fn instance(alloc: Global, tags: &[u32], binds: &[Sym]) -> Result<Instance, NoMemory>
    ensures { IfOk result (λ instance. instance.binds ≡ binds.now) }
{
    Ok(Instance {
        rule: 1,
        tags: List::from_slice(alloc, tags)?,
        binds: List::from_slice(alloc, binds)?,
    })
}

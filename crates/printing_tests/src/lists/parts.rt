// Preferences, elements, productions and instances.
ghost use Rattle.std.specs.Prelude.{◌≡◌, IfOk, map};
ghost use Rattle.soar_sym.specs.Words.{IsKnown, architecture};
ghost use Rattle.soar_rule.specs.Symbols.{AreKnown, symbols_of};
ghost use Rattle.defs_match.specs.Rules.{rule_seen};
ghost use Rattle.soar_settle.specs.Known.{AreRulesKnown};

use defs_match::{Instance, Rule};
use defs_soar::{PrefKind, Preference, Wish};
use rule_shelf::Rules;
use soar_prefs::Prefs;
use soar_rule::{Kind, Production, Support};
use soar_sym::architecture::{NAME, OPERATOR, STATE};
use soar_sym::{List, NoMemory, Sym, Triple};
use soar_wm::Memory;
use std::alloc::Global;

pub const S1: Sym = Sym::Ident {
    letter: b'S',
    number: 1,
};

pub const O1: Sym = Sym::Ident {
    letter: b'O',
    number: 1,
};

pub const O2: Sym = Sym::Ident {
    letter: b'O',
    number: 2,
};

pub const O10: Sym = Sym::Ident {
    letter: b'O',
    number: 10,
};

/// A preference for an operator of S1.
pub fn wish(value: Sym, kind: PrefKind, referent: Option<Sym>) -> Wish {
    Wish {
        id: S1,
        attr: OPERATOR,
        value,
        kind,
        referent,
    }
}

/// A row of such a preference. Those of odd firings have instance support.
fn row(firing: u64, wish: Wish) -> Preference {
    Preference {
        firing,
        wish,
        operator_support: firing % 2 == 0,
    }
}

/// Rows of two slots, in no order.
pub fn prefs(alloc: Global) -> Result<Prefs, NoMemory> {
    let mut prefs = Prefs::new(alloc, 20)?;
    let named = Wish {
        id: S1,
        attr: NAME,
        value: O1,
        kind: PrefKind::Accept,
        referent: None,
    };
    for row in [
        row(1, wish(STATE, PrefKind::Indifferent, None)),
        row(4, wish(O2, PrefKind::Numeric, Some(Sym::Int(5)))),
        row(2, wish(O1, PrefKind::Better, Some(O10))),
        row(9, wish(O1, PrefKind::Better, Some(O2))),
        row(1, named),
        row(8, wish(O1, PrefKind::Accept, None)),
        row(7, wish(O1, PrefKind::Accept, None)),
        row(1, wish(O10, PrefKind::Require, None)),
        row(1, wish(Sym::Int(-2), PrefKind::Best, None)),
    ] {
        if prefs.add(row).is_err() {
            return Err(NoMemory);
        }
    }
    Ok(prefs)
}

/// The elements `(S1 ^name 5)` and `(S1 ^operator O1 +)`.
pub fn memory(alloc: Global) -> Result<Memory, NoMemory> {
    let mut memory = Memory::new(alloc, 3, 5)?;
    for (attr, value, accept) in [(NAME, Sym::Int(5), false), (OPERATOR, O1, true)] {
        let triple = Triple {
            id: S1,
            attr,
            value,
            accept,
        };
        if memory.add(triple, false).is_err() {
            return Err(NoMemory);
        }
    }
    Ok(memory)
}

/// The productions `state` and `-5` under the numbers 3 and 8.
pub fn rules(alloc: Global) -> Result<Rules, NoMemory>
    ensures { IfOk result (λ rules. AreRulesKnown architecture (map rule_seen rules)) }
{
    let mut rules = Rules::new(alloc);
    rules.push(rule(alloc, 3, STATE)?)?;
    rules.push(rule(alloc, 8, Sym::Int(-5))?)?;
    Ok(rules)
}

/// A production without conditions and actions.
pub fn rule(alloc: Global, number: u64, name: Sym) -> Result<Rule, NoMemory>
    requires { IsKnown architecture name }
    ensures known { IfOk result (λ rule. AreKnown architecture (symbols_of (rule_seen rule).production)) }
    ensures number { IfOk result (λ rule. rule.number ≡ number) }
{
    let production = Production {
        name,
        doc: None,
        kind: Kind::User,
        support: Support::Unset,
        vars: List::new(alloc),
        conds: List::new(alloc),
        actions: List::new(alloc),
    };
    Rule::new(alloc, number, production)
}

/// Two instances of the production 8, and one of another between them.
pub fn instances(alloc: Global) -> Result<List<Instance>, NoMemory> {
    let mut instances = List::new(alloc);
    for (rule, tag) in [(8, 4), (9, 5), (8, 12)] {
        instances.push(Instance {
            rule,
            tags: List::from_slice(alloc, &[2, tag])?,
            binds: List::new(alloc),
        })?;
    }
    Ok(instances)
}

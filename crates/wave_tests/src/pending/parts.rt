// Two goals, an element of each for two rules, and firings by their numbers.
ghost use Rattle.std.specs.Prelude.{◌≡◌, ◌∷◌, [], map, IfOk, IsTrue};
ghost use Rattle.soar_rule.specs.Below.{conds_below};
ghost use Rattle.soar_rule.specs.declared.cond.Test.TheVariants.{Plain as PlainOf};
ghost use Rattle.defs_match.specs.Rules.{rule_seen};
ghost use Rattle.pending_work.specs.Firables.{AreNumbered};

use defs_match::{Instance, Rule};
use defs_soar::{Goal, Impasse};
use live_firings::{Live, LiveFirings};
use rule_shelf::Rules;
use soar_rule::{Atom, Cond, Field, Kind, Pattern, Production, Support, Test};
use soar_sym::architecture::NAME;
use soar_sym::{List, NoMemory, Sym, Triple};
use soar_wm::Memory;
use std::alloc::Global;

fn state(number: u32) -> Sym {
    Sym::Ident {
        letter: b'S',
        number,
    }
}

/// S1, and S2 below it.
pub fn goals(alloc: Global) -> Result<List<Goal>, NoMemory> {
    let mut goals = List::new(alloc);
    goals.push(goal(alloc, 1, Impasse::Top))?;
    goals.push(goal(alloc, 2, Impasse::StateNoChange))?;
    Ok(goals)
}

fn goal(alloc: Global, number: u32, impasse: Impasse) -> Goal {
    Goal {
        id: state(number),
        impasse,
        items: List::new(alloc),
        selected: None,
    }
}

/// `(S1 ^1 7)`, `(S2 ^1 7)`, `(S1 ^2 7)` and `(S2 ^2 7)`, with tags from 1.
const ELEMENTS: [(u32, i64); 4] = [(1, 1), (2, 1), (1, 2), (2, 2)];

pub fn memory(alloc: Global) -> Result<Memory, NoMemory> {
    let mut memory = Memory::new(alloc, 9, 0)?;
    for (number, attr) in &ELEMENTS {
        let triple = Triple {
            id: state(*number),
            attr: Sym::Int(*attr),
            value: Sym::Int(7),
            accept: false,
        };
        if memory.add(triple, true).is_err() {
            return Err(NoMemory);
        }
    }
    Ok(memory)
}

/// A rule that takes the elements with the attribute 1, and one of operator kind for the attribute 2.
pub fn rules(alloc: Global) -> Result<Rules, NoMemory>
    ensures { IfOk result (λ rules. AreNumbered (map rule_seen rules)) }
{
    let mut rules = Rules::new(alloc);
    rules.push(rule(alloc, 1, Sym::Int(1), Support::Instance)?)?;
    rules.push(rule(alloc, 2, Sym::Int(2), Support::Operator)?)?;
    Ok(rules)
}

/// Copies of all rules, in order.
pub fn listed(alloc: Global, rules: &Rules) -> Result<List<Rule>, NoMemory>
    ensures { IfOk result (λ listed. listed ≡ rules.now) }
{
    let mut listed = List::new(alloc);
    'rules: for rule in rules.iter() {
        listed.push(rule.share()?)?;
    }
    Ok(listed)
}

fn rule(alloc: Global, number: u64, attr: Sym, support: Support) -> Result<Rule, NoMemory>
    ensures { IfOk result (λ rule. rule.number ≡ number) }
{
    let production = Production {
        name: NAME,
        doc: None,
        kind: Kind::User,
        support,
        vars: List::from_slice(alloc, &[NAME; 2])?,
        conds: takes(alloc, attr)?,
        actions: List::new(alloc),
    };
    Rule::new(alloc, number, production)
}

/// Variable 0, the attribute, and variable 1.
fn takes(alloc: Global, attr: Sym) -> Result<List<Cond>, NoMemory>
    ensures { IfOk result (λ conds. IsTrue (conds_below 2 conds)) }
{
    let pattern = Pattern {
        state: false,
        id: field(alloc, Atom::Var(0))?,
        attr: field(alloc, Atom::Const(attr))?,
        value: field(alloc, Atom::Var(1))?,
        accept: false,
    };
    let mut conds = List::new(alloc);
    conds.push(Cond::Pos(pattern))?;
    Ok(conds)
}

fn field(alloc: Global, atom: Atom) -> Result<Field, NoMemory>
    ensures { IfOk result (λ field. field ≡ record { tests = PlainOf atom ∷ [] }) }
{
    let mut tests = List::new(alloc);
    tests.push(Test::Plain(atom))?;
    Ok(Field { tests })
}

/// Firings, each with its number, its depth, and the rule and the tag of its instance.
pub fn live_of(alloc: Global, firings: &[(u64, usize, u64, u32)]) -> Result<LiveFirings, NoMemory> {
    let mut live = LiveFirings::new(alloc);
    for (number, depth, rule, tag) in firings {
        let tags = List::from_slice(alloc, &[*tag])?;
        live.push(Live {
            number: *number,
            name: NAME,
            depth: *depth,
            instance: Instance {
                rule: *rule,
                tags,
                binds: List::new(alloc),
            },
        })?;
    }
    Ok(live)
}

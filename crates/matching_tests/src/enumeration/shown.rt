// Rules of ten variables, and their instances as text.
ghost use Rattle.std.specs.Prelude.{◌≡◌, IfOk, IsTrue};
ghost use Rattle.soar_rule.specs.Below.{conds_below};

use defs_match::{Instance, Rule};
use match_direct::conflict;
use soar_rule::{Cond, Kind, Production, Support};
use soar_sym::{List, NoMemory, Sym};
use soar_wm::Element;
use std::alloc::Global;

pub fn rule_of(alloc: Global, number: u64, conds: List<Cond>) -> Result<Rule, NoMemory>
    requires { IsTrue (conds_below 10 conds) }
    ensures number { IfOk result (λ rule. rule.number ≡ number) }
    ensures conds { IfOk result (λ rule. rule.production.conds ≡ conds) }
{
    let vars = List::from_slice(alloc, &[Sym::Word(1); 10])?;
    let production = Production {
        name: Sym::Word(0),
        doc: None,
        kind: Kind::User,
        support: Support::Unset,
        vars,
        conds,
        actions: List::new(alloc),
    };
    Rule::new(alloc, number, production)
}

/// The instances of rule 1, which has these conditions.
pub fn instances_of(
    alloc: Global,
    conds: List<Cond>,
    elements: &[Element],
) -> Result<List<Instance>, NoMemory>
    requires { IsTrue (conds_below 10 conds) }
{
    let rules = vec![in alloc; rule_of(alloc, 1, conds)?]?;
    conflict(alloc, rules.as_slice(), elements)
}

/// Each instance by its rule and the last digits of its tags, as `1:66;`.
pub fn shown(alloc: Global, instances: &List<Instance>) -> Result<String, NoMemory> {
    let mut text = String::new(alloc);
    for instance in instances.as_slice() {
        add_instance(&mut text, instance)?;
    }
    Ok(text)
}

fn add_instance(text: &mut String, instance: &Instance) -> Result<(), NoMemory> {
    text.push(digit(instance.rule))?;
    text.push(':')?;
    for tag in instance.tags.as_slice() {
        text.push(digit(u64::from(*tag)))?;
    }
    Ok(text.push(';')?)
}

fn digit(number: u64) -> char {
    char::from(b'0' + (number % 10) as u8)
}

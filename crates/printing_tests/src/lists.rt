ghost use Rattle.std.specs.Prelude.{◌≡◌};
ghost use Rattle.soar_sym.specs.Words.{architecture};

mod known;
mod parts;

use crate::lists::known::{are_elements_known, are_rows_known, is_wish_known};
use crate::lists::parts::{O1, O2, S1, instances, memory, prefs, rule, rules, wish};
use defs_soar::PrefKind;
use list_parts::{
    Stats, list_elements, list_matches_of, list_preferences, list_rules, say_stats, show_wish,
};
use rule_shelf::Rules;
use soar_sym::architecture::{NIL, OPERATOR};
use soar_sym::{NoMemory, Sym, SymTable, Text};
use std::alloc::Global;
use std::test::Fail;

/// Each kind of preference for O1 as it is shown, where there is the referent O2.
const SIGNS: &[(PrefKind, &str)] = &[
    (PrefKind::Accept, "(S1 ^operator O1 +)"),
    (PrefKind::Require, "(S1 ^operator O1 !)"),
    (PrefKind::Reject, "(S1 ^operator O1 -)"),
    (PrefKind::Prohibit, "(S1 ^operator O1 ~)"),
    (PrefKind::Better, "(S1 ^operator O1 > O2)"),
    (PrefKind::Worse, "(S1 ^operator O1 < O2)"),
    (PrefKind::Best, "(S1 ^operator O1 >)"),
    (PrefKind::Worst, "(S1 ^operator O1 <)"),
    (PrefKind::Indifferent, "(S1 ^operator O1 =)"),
    (PrefKind::Numeric, "(S1 ^operator O1 = O2)"),
    (PrefKind::IndifferentTo, "(S1 ^operator O1 = O2)"),
];

fn shown(alloc: Global, kind: PrefKind) -> Result<Text, NoMemory> {
    let table = SymTable::new(alloc)?;
    let mut out = Text::new(alloc);
    let wish = wish(O1, kind, Some(O2));
    if is_wish_known(&table, wish) {
        show_wish(&table, &wish, &mut out)?;
    }
    Ok(out)
}

#[test]
fn each_kind_has_its_sign(rt: HostRuntime) -> Result<(), Fail> {
    for (kind, wanted) in SIGNS {
        assert!(rt; shown(rt.alloc(), *kind)?.as_str() == *wanted, "{wanted}");
    }
    Ok(())
}

/// The rows of an operator slot, then those of a slot without rows.
const PREFERENCES: &str = "x
(S1 ^operator O1 +) i fire 7
(S1 ^operator O1 +) o fire 8
(S1 ^operator O1 > O2) i fire 9
(S1 ^operator O1 > O10) o fire 2
(S1 ^operator O2 = 5) o fire 4
(S1 ^operator O10 !) i fire 1
(S1 ^operator -2 >) i fire 1
(S1 ^operator state =) i fire 1
no preferences
";

fn preferences(alloc: Global) -> Result<Text, NoMemory> {
    let table = SymTable::new(alloc)?;
    let prefs = prefs(alloc)?;
    let rows = prefs.all(alloc)?;
    let mut out = Text::from_str(alloc, "x")?;
    let mut mid_line = true;
    if are_rows_known(&table, rows.as_slice()) {
        list_preferences(&table, &prefs, S1, OPERATOR, &mut out, &mut mid_line)?;
        list_preferences(&table, &prefs, O1, OPERATOR, &mut out, &mut mid_line)?;
    }
    Ok(out)
}

#[test]
fn preferences_stand_by_value_kind_referent_and_firing(rt: HostRuntime) -> Result<(), Fail> {
    let out = preferences(rt.alloc())?;
    assert!(rt; out.as_str() == PREFERENCES, "{}", out.as_str());
    Ok(())
}

/// The other lists, productions and matches first where there are none.
const LISTS: &str = "x
no rules
state
-5
no matches
-5: 2 4
-5: 2 12
6: (S1 ^name 5)
7: (S1 ^operator O1 +)
cycles 1 waves 20 firings 3 retractions 4 productions 5 elements 6 preferences 7 live 8 chunks 0
";

fn lists(alloc: Global) -> Result<Text, NoMemory> {
    let table = SymTable::new(alloc)?;
    let mut out = Text::from_str(alloc, "x")?;
    let mut mid_line = true;
    say_rules(&table, &mut out, &mut mid_line)?;
    say_matches(&table, &mut out, &mut mid_line)?;
    say_elements(&table, &mut out, &mut mid_line)?;
    say_counts(&mut out, &mut mid_line)?;
    Ok(out)
}

fn say_rules(table: &SymTable, out: &mut Text, mid_line: &mut bool) -> Result<(), NoMemory>
    requires { table.now ≡ architecture }
{
    let alloc = out.allocator();
    let rules = rules(alloc)?;
    list_rules(table, &Rules::new(alloc), out, mid_line)?;
    list_rules(table, &rules, out, mid_line)
}

fn say_matches(table: &SymTable, out: &mut Text, mid_line: &mut bool) -> Result<(), NoMemory>
    requires { table.now ≡ architecture }
{
    let alloc = out.allocator();
    let instances = instances(alloc)?;
    for (number, name) in [(7, NIL), (8, Sym::Int(-5))] {
        let rule = rule(alloc, number, name)?;
        list_matches_of(table, &rule, instances.as_slice(), out, mid_line)?;
    }
    Ok(())
}

fn say_elements(table: &SymTable, out: &mut Text, mid_line: &mut bool) -> Result<(), NoMemory> {
    let memory = memory(out.allocator())?;
    let elements = memory.all(out.allocator())?;
    if are_elements_known(table, elements.as_slice()) {
        list_elements(table, &memory, out, mid_line)?;
    }
    Ok(())
}

fn say_counts(out: &mut Text, mid_line: &mut bool) -> Result<(), NoMemory> {
    let stats = Stats {
        cycles: 1,
        waves: 20,
        firings: 3,
        retractions: 4,
        productions: 5,
        elements: 6,
        preferences: 7,
        live: 8,
        chunks: 0,
    };
    say_stats(&stats, out, mid_line)
}

#[test]
fn each_list_is_written(rt: HostRuntime) -> Result<(), Fail> {
    let out = lists(rt.alloc())?;
    assert!(rt; out.as_str() == LISTS, "{}", out.as_str());
    Ok(())
}

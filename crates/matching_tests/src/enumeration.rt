mod build;
mod direct;
mod rows;
mod shown;

ghost use Rattle.std.specs.Prelude.{IfOk, IsTrue};
ghost use Rattle.soar_rule.specs.Below.{conds_below};

use build::{pattern, top, variable};
use match_direct::conflict;
use rows::{S1, conds_of, conjunctive, elements_of, relation_of, symbol_of};
use shown::{instances_of, rule_of, shown};
use soar_rule::{Atom, Cond, Test};
use soar_sym::{List, NoMemory, Sym};
use soar_wm::Element;
use std::alloc::Global;
use std::test::Fail;

/// Whether these conditions have these instances over these elements.
fn finds(
    alloc: Global,
    conds: &[[u8; 3]],
    elements: &[[u8; 3]],
    wanted: &str,
) -> Result<bool, NoMemory> {
    let conds = conds_of(alloc, conds)?;
    let elements = elements_of(alloc, elements)?;
    let instances = instances_of(alloc, conds, elements.as_slice())?;
    Ok(shown(alloc, &instances)?.as_str() == wanted)
}

#[test]
fn elements_are_taken_in_order_of_tags(rt: HostRuntime) -> Result<(), Fail> {
    for (elements, wanted) in [
        ([*b"6a1"].as_slice(), "1:66;"),
        ([*b"6a1", *b"7a2"].as_slice(), "1:66;1:67;1:76;1:77;"),
    ] {
        assert!(rt;
            finds(rt.alloc(), &[*b"+a1", *b"+a2"], elements, wanted)?,
            "{wanted}"
        );
    }
    Ok(())
}

/// Whether the second instance tells its symbols in the order in which they were bound.
fn binds_in_order(alloc: Global) -> Result<bool, NoMemory> {
    let conds = conds_of(alloc, &[*b"+a1", *b"+a2"])?;
    let elements = elements_of(alloc, &[*b"6a1", *b"7a2"])?;
    let instances = instances_of(alloc, conds, elements.as_slice())?;
    let binds = [S1, Sym::Int(1), Sym::Int(2)];
    match instances.get(1) {
        Some(instance) => Ok(instance.binds.as_slice() == binds.as_slice()),
        None => Ok(false),
    }
}

#[test]
fn symbols_come_in_order_of_binding(rt: HostRuntime) -> Result<(), Fail> {
    assert!(rt; binds_in_order(rt.alloc())?);
    Ok(())
}

/// What rules 3 and 7 find of `(<s> ^b <x>)` and `(<s> ^a <x>)`.
fn shown_of_two_rules(alloc: Global) -> Result<String, NoMemory> {
    let mut rules = vec![in alloc; rule_of(alloc, 3, conds_of(alloc, &[*b"+b1"])?)?]?;
    rules.push(rule_of(alloc, 7, conds_of(alloc, &[*b"+a1"])?)?)?;
    let elements = elements_of(alloc, &[*b"6a1", *b"7a2", *b"8b1"])?;
    let instances = conflict(alloc, rules.as_slice(), elements.as_slice())?;
    shown(alloc, &instances)
}

#[test]
fn rules_come_as_listed(rt: HostRuntime) -> Result<(), Fail> {
    let shown = shown_of_two_rules(rt.alloc())?;
    assert!(rt; shown.as_str() == "3:8;7:6;7:7;");
    Ok(())
}

/// Whether the symbol of a row stands to the other in its relation as the row says.
fn stands(alloc: Global, row: [u8; 4]) -> Result<bool, NoMemory> {
    let [value, relation, to, holds] = row;
    let test = Test::Rel(relation_of(relation), Atom::Const(symbol_of(to)));
    let cond = Cond::Pos(pattern(alloc, 24, vec![in alloc; test]?)?);
    let conds = List::from_vec(vec![in alloc; cond]?);
    let elements = elements_of(alloc, &[[b'6', b'a', value]])?;
    let instances = instances_of(alloc, conds, elements.as_slice())?;
    Ok(instances.is_empty() == (holds == b'n'))
}

#[test]
fn relations_are_of_the_element_to_the_test(rt: HostRuntime) -> Result<(), Fail> {
    for row in [
        *b"1!1n", *b"x!wy", *b"S!Ty", *b"m<0y", *b"2<2n", *b"w<vn", *b"2>1y", *b"1>2n", *b"T>Sn",
        *b"2{2y", *b"3{2n", *b"w{wn", *b"2}2y", *b"1}2n", *b"w=vy", *b"S=Ty", *b"1=2y", *b"x=wn",
    ] {
        assert!(rt; stands(rt.alloc(), row)?, "{row:?}");
    }
    Ok(())
}

/// What conditions find over a 1, b 1, b 2, b v and b S1.
fn shown_of_fields(alloc: Global, conds: List<Cond>) -> Result<String, NoMemory>
    requires { IsTrue (conds_below 10 conds) }
{
    let elements = elements_of(alloc, &[*b"1a1", *b"2b1", *b"3b2", *b"4bv", *b"5bS"])?;
    let instances = instances_of(alloc, conds, elements.as_slice())?;
    shown(alloc, &instances)
}

/// `(<s> ^a <x>) (<s> ^b { <> <x> <=> <x> <y> })`
fn differs_in_kind(alloc: Global) -> Result<List<Cond>, NoMemory>
    ensures { IfOk result (λ conds. IsTrue (conds_below 10 conds)) }
{
    let tests = vec![in alloc;
        Test::Rel(relation_of(b'!'), Atom::Var(1)),
        Test::Rel(relation_of(b'='), Atom::Var(1)),
        variable(2),
    ]?;
    let second = Cond::Pos(pattern(alloc, 25, tests)?);
    let mut conds = conds_of(alloc, &[*b"+a1"])?;
    conds.push(second)?;
    Ok(conds)
}

#[test]
fn a_field_passes_all_its_tests(rt: HostRuntime) -> Result<(), Fail> {
    let shown = shown_of_fields(rt.alloc(), differs_in_kind(rt.alloc())?)?;
    assert!(rt; shown.as_str() == "1:13;");
    Ok(())
}

/// `(<s> ^b << v 2 >>)`
fn has_one_of_two(alloc: Global) -> Result<List<Cond>, NoMemory>
    ensures { IfOk result (λ conds. IsTrue (conds_below 10 conds)) }
{
    let choices = List::from_slice(alloc, &[symbol_of(b'v'), Sym::Int(2)])?;
    let cond = Cond::Pos(pattern(alloc, 25, vec![in alloc; Test::OneOf(choices)]?)?);
    Ok(List::from_vec(vec![in alloc; cond]?))
}

#[test]
fn each_choice_of_a_field_passes(rt: HostRuntime) -> Result<(), Fail> {
    let shown = shown_of_fields(rt.alloc(), has_one_of_two(rt.alloc())?)?;
    assert!(rt; shown.as_str() == "1:3;1:4;");
    Ok(())
}

#[test]
fn a_variable_that_is_bound_compares(rt: HostRuntime) -> Result<(), Fail> {
    let shown = shown_of_fields(rt.alloc(), conds_of(rt.alloc(), &[*b"+b0"])?)?;
    assert!(rt; shown.as_str() == "1:5;");
    Ok(())
}

/// A plain element of a state, one with the mark, and one of no state.
fn elements_with_marks() -> [Element; 3] {
    let mut marked = top(7, 24, Sym::Int(2));
    marked.accept = true;
    let mut of_no_state = top(8, 24, Sym::Int(2));
    of_no_state.of_state = false;
    [top(6, 24, Sym::Int(1)), marked, of_no_state]
}

/// Whether a pattern that asks so for the flag and the mark finds this over those elements.
fn asks_for(alloc: Global, state: bool, accept: bool, wanted: &str) -> Result<bool, NoMemory> {
    let mut asked = pattern(alloc, 24, vec![in alloc; variable(1)]?)?;
    asked.state = state;
    asked.accept = accept;
    let conds = List::from_vec(vec![in alloc; Cond::Pos(asked)]?);
    let instances = instances_of(alloc, conds, &elements_with_marks())?;
    Ok(shown(alloc, &instances)?.as_str() == wanted)
}

#[test]
fn mark_and_flag_are_asked_for(rt: HostRuntime) -> Result<(), Fail> {
    for (state, accept, wanted) in [
        (false, false, "1:6;1:8;"),
        (true, false, "1:6;"),
        (false, true, "1:7;"),
    ] {
        assert!(rt; asks_for(rt.alloc(), state, accept, wanted)?, "{wanted}");
    }
    Ok(())
}

#[test]
fn a_negation_blocks(rt: HostRuntime) -> Result<(), Fail> {
    for (elements, wanted) in [
        ([*b"5a2", *b"6a1"].as_slice(), "1:5;1:6;"),
        ([*b"5a2", *b"6a1", *b"7b1"].as_slice(), "1:5;"),
    ] {
        assert!(rt;
            finds(rt.alloc(), &[*b"+a1", *b"-b1"], elements, wanted)?,
            "{wanted}"
        );
    }
    Ok(())
}

/// `(<s> ^a <x>) -{(<s> ^b <x>) -{(<s> ^c <y>) -(<s> ^d <y>)}}`
fn nested(alloc: Global) -> Result<List<Cond>, NoMemory>
    ensures { IfOk result (λ conds. IsTrue (conds_below 10 conds)) }
{
    let mut outer = conds_of(alloc, &[*b"+b1"])?;
    outer.push(conjunctive(conds_of(alloc, &[*b"+c2", *b"-d2"])?))?;
    let mut conds = conds_of(alloc, &[*b"+a1"])?;
    conds.push(conjunctive(outer))?;
    Ok(conds)
}

/// Whether the negations in one another find this over these elements.
fn finds_nested(alloc: Global, elements: &[[u8; 3]], wanted: &str) -> Result<bool, NoMemory> {
    let elements = elements_of(alloc, elements)?;
    let instances = instances_of(alloc, nested(alloc)?, elements.as_slice())?;
    Ok(shown(alloc, &instances)?.as_str() == wanted)
}

#[test]
fn negations_block_in_one_another(rt: HostRuntime) -> Result<(), Fail> {
    let elements = [*b"5a2", *b"6a1", *b"7b1", *b"8c1", *b"9d1"];
    for (count, wanted) in [(2, "1:5;1:6;"), (3, "1:5;"), (4, "1:5;1:6;"), (5, "1:5;")] {
        assert!(rt;
            finds_nested(rt.alloc(), &elements[..count], wanted)?,
            "{count}"
        );
    }
    Ok(())
}

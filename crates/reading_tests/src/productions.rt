mod build;
mod compare;
mod rows;

ghost use Rattle.std.specs.Prelude.{◌<◌};

use build::{buried, conjunctive, production, with_last};
use compare::{are_actions, are_rows, is_row};
use rows::{actions_of, conds_of};
use rule_check::check;
use soar_rule::{Cond, Kind, Production, canonical};
use soar_sym::{List, NoMemory, Sym};
use std::alloc::Global;
use std::test::Fail;

/// The production of rows.
fn of_rows(alloc: Global, conds: &[[u8; 4]], actions: &[[u8; 5]]) -> Result<Production, NoMemory> {
    let conds = conds_of(alloc, conds)?;
    production(alloc, conds, actions_of(alloc, actions)?)
}

/// The fault of a production as it is told, and nothing where it has none.
fn told(alloc: Global, production: &Production) -> Result<String, NoMemory> {
    match check(alloc, production) {
        Ok(_) => Ok(String::new(alloc)),
        Err(fault) => Ok(format!(in alloc; "{fault}")?),
    }
}

fn is_told(
    alloc: Global,
    conds: &[[u8; 4]],
    actions: &[[u8; 5]],
    fault: &str,
) -> Result<bool, NoMemory> {
    let production = of_rows(alloc, conds, actions)?;
    Ok(told(alloc, &production)?.as_str() == fault)
}

#[test]
fn faults_of_conditions_are_told_in_order(rt: HostRuntime) -> Result<(), Fail> {
    let none: [[u8; 5]; 0] = [];
    for (conds, fault) in [
        // a missing state is told first
        ([*b"-061", *b"+162", *b"+162"], "no state condition"),
        // an unbound variable is told before an unconnected condition
        ([*b"+516", *b"*061", *b"!123"], "unbound variable number 3"),
        // places count negations, and begin at one
        ([*b"*061", *b"-021", *b"+415"], "unconnected condition 3"),
        ([*b"*061", *b"-021", *b"+125"], ""),
    ] {
        assert!(rt;
            is_told(rt.alloc(), conds.as_slice(), none.as_slice(), fault)?,
            "{fault}"
        );
    }
    Ok(())
}

#[test]
fn faults_of_actions_are_told_in_order(rt: HostRuntime) -> Result<(), Fail> {
    let conds = [*b"*061"];
    for (actions, fault) in [
        // actions link new identifiers in any order
        ([*b"410-+", *b"0104+"], ""),
        // no variable of a call is new, and an identifier that is not linked is told first
        ([*b"410-+", *b"0115+"], "unbound variable number 4"),
        ([*b"0100+", *b"0115+"], "unbound variable number 5"),
        // a referent links as a value does
        ([*b"070-<", *b"510-+"], ""),
        ([*b"070-<", *b"410-+"], "unbound variable number 4"),
        // eight calls are not too deep
        ([*b"0100+", *b"0181+"], ""),
        ([*b"0100+", *b"0191+"], "too deep"),
        // operators alone have preferences other than `+` and `-`
        ([*b"070-!", *b"010--"], ""),
        (
            [*b"010-!", *b"0100+"],
            "preference for an ordinary attribute",
        ),
    ] {
        assert!(rt;
            is_told(rt.alloc(), conds.as_slice(), actions.as_slice(), fault)?,
            "{fault}"
        );
    }
    Ok(())
}

/// Whether `(<1> ^1 <2>) -(<2> ^2 <3>) (state <0> ^6 <1>) -{(<4> ^3 <> <5>) (<4> ^4 <5>)}` comes in this order.
fn comes_in_order(alloc: Global) -> Result<bool, NoMemory> {
    let inside = conjunctive(conds_of(alloc, &[*b"!435", *b"+445"])?);
    let conds = with_last(alloc, &[*b"+112", *b"-223", *b"*061"], inside)?;
    let production = production(alloc, conds, List::new(alloc))?;
    match check(alloc, &production) {
        Ok(checked) => Ok(is_in_order(checked.conds.as_slice())),
        Err(_) => Ok(false),
    }
}

fn is_in_order(conds: &[Cond]) -> bool {
    match conds {
        [first, second, third, Cond::Conj(inside)] => {
            is_row(first, *b"*061")
                && is_row(second, *b"+112")
                && is_row(third, *b"-223")
                && are_rows(inside.as_slice(), &[*b"+445", *b"!435"])
        }
        _ => false,
    }
}

#[test]
fn conditions_come_in_match_order(rt: HostRuntime) -> Result<(), Fail> {
    assert!(rt; comes_in_order(rt.alloc())?);
    Ok(())
}

/// What is told of `(state <0> ^6 <1>) -{-{..-{(<id> ^1 <> <value>)}..}}` with 64 negations.
fn told_of_buried(alloc: Global, id: u32, value: u32) -> Result<String, NoMemory>
    requires id { id < 10 }
    requires value { value < 10 }
{
    let buried = buried(alloc, 64, id, value)?;
    let conds = with_last(alloc, &[*b"*061"], buried)?;
    told(alloc, &production(alloc, conds, List::new(alloc))?)
}

#[test]
fn negations_deep_in_one_another_are_told_at_once(rt: HostRuntime) -> Result<(), Fail> {
    for (id, value, fault) in [(2, 3, "unbound variable number 3"), (0, 1, "too deep")] {
        let told = told_of_buried(rt.alloc(), id, value)?;
        assert!(rt; told.as_str() == fault, "{fault}");
    }
    Ok(())
}

/// Whether a copy has these conditions and actions.
fn is_copied(alloc: Global, conds: &[[u8; 4]], actions: &[[u8; 5]]) -> Result<bool, NoMemory> {
    let copy = of_rows(alloc, conds, actions)?.copy(alloc)?;
    Ok(are_rows(copy.conds.as_slice(), conds) && are_actions(copy.actions.as_slice(), actions))
}

#[test]
fn a_copy_succeeds(rt: HostRuntime) -> Result<(), Fail> {
    let conds = [*b"*061", *b"-021"];
    assert!(rt; is_copied(rt.alloc(), conds.as_slice(), &[*b"0101+"])?);
    Ok(())
}

/// Whether the canonical form has nothing of what a production has but its body.
fn form_has_no_names(alloc: Global) -> Result<bool, NoMemory> {
    let production = of_rows(alloc, &[*b"*764", *b"-427"], &[*b"7105+"])?;
    let form = canonical(alloc, &production)?;
    Ok(has_no_names(&form))
}

fn has_no_names(form: &Production) -> bool {
    let names = [Sym::Int(1), Sym::Int(2), Sym::Int(3)];
    form.name == Sym::Int(0)
        && form.doc.is_none()
        && matches!(form.kind, Kind::User)
        && form.vars.as_slice() == names.as_slice()
}

#[test]
fn a_canonical_form_has_no_names(rt: HostRuntime) -> Result<(), Fail> {
    assert!(rt; form_has_no_names(rt.alloc())?);
    Ok(())
}

/// Whether the form of a production has these conditions and actions.
fn has_form(
    alloc: Global,
    production: &Production,
    conds: &[[u8; 4]],
    actions: &[[u8; 5]],
) -> Result<bool, NoMemory> {
    let form = canonical(alloc, production)?;
    Ok(are_rows(form.conds.as_slice(), conds) && are_actions(form.actions.as_slice(), actions))
}

/// Whether the form of `(state <id> ^6 <value>) -(<value> ^attr <id>) --> (<id> ^1 <new>)` is that of three variables
/// with attribute 2.
fn is_alike(alloc: Global, conds: [[u8; 4]; 2], action: [u8; 5]) -> Result<bool, NoMemory> {
    let production = of_rows(alloc, conds.as_slice(), &[action])?;
    has_form(alloc, &production, &[*b"*061", *b"-120"], &[*b"0102+"])
}

#[test]
fn productions_that_differ_in_names_have_one_canonical_form(rt: HostRuntime) -> Result<(), Fail> {
    for (conds, action, alike) in [
        ([*b"*764", *b"-427"], *b"7105+", true),
        ([*b"*061", *b"-120"], *b"0102+", true),
        // another constant
        ([*b"*061", *b"-130"], *b"0102+", false),
        // two variables are one
        ([*b"*061", *b"-120"], *b"0100+", false),
        ([*b"*060", *b"-020"], *b"0102+", false),
    ] {
        assert!(rt; is_alike(rt.alloc(), conds, action)? == alike);
    }
    Ok(())
}

// What a pattern lacks to be matched next.
ghost use Rattle.std.specs.Prelude.{◌≡◌, Bool, ℕ};
ghost use Rattle.std.specs.List.{list_any};
ghost use Rattle.soar_rule.specs.MatchOrder.{is_linked, missing_in};
ghost use Rattle.soar_rule.specs.Variables.{is_among, plain_in, plain_in_test};
ghost use Rattle.rule_check.specs.Members.{members};
ghost use Rattle.rule_check.specs.Parts.{field_at, known_at, missing_at};

use crate::marks::Marks;
use soar_rule::{Atom, Field, Pattern, Test};

/// A field of a pattern.
#[derive(Clone, Copy)]
enum Part {
    Id,
    Attr,
    Value,
}

/// Whether the variable of a number is among those that are bound.
#[tactic(auto, using(crate::proofs::MemberLemmas::marked_among))]
pub(crate) fn is_bound(bound: &Marks, number: u32) -> bool
    ensures { result ≡ is_among (members bound.now.marks) number }
{
    bound.has(number)
}

fn is_plain(test: &Test, number: u32) -> bool
    ensures { result ≡ is_among (plain_in_test test.now) number }
{
    match test {
        Test::Plain(Atom::Var(plain)) => *plain == number,
        _ => false,
    }
}

/// Whether the variable of a number is plain in a field.
#[tactic(auto, using(soar_rule::proofs::VariableLemmas::among_joined))]
fn has_plain(field: &Field, number: u32) -> bool
    ensures { result ≡ is_among (plain_in field.now) number }
{
    'tests: for test in field.tests.as_slice() {
        if is_plain(test, number) {
            return true;
        }
    }
    false
}

/// Whether a relation in a field can compare with the variable of a number.
#[tactic(auto, using(soar_rule::proofs::VariableLemmas::among_joined))]
fn is_known(bound: &Marks, pattern: &Pattern, part: Part, number: u32) -> bool
    ensures { result ≡ is_among (known_at part (members bound.now.marks) pattern.now) number }
{
    is_bound(bound, number)
        || has_plain(&pattern.id, number)
        || match part {
            Part::Id => false,
            Part::Attr => has_plain(&pattern.attr, number),
            Part::Value => has_plain(&pattern.attr, number) || has_plain(&pattern.value, number),
        }
}

fn field_at(pattern: &Pattern, part: Part) -> &Field
    ensures { result.now ≡ field_at part pattern.now }
{
    match part {
        Part::Id => &pattern.id,
        Part::Attr => &pattern.attr,
        Part::Value => &pattern.value,
    }
}

/// The first variable of a field's relations that is not known there.
fn missing_at(bound: &Marks, pattern: &Pattern, part: Part) -> Option<u32>
    ensures { result ≡ missing_at part (members bound.now.marks) pattern.now }
{
    'tests: for test in field_at(pattern, part).tests.as_slice() {
        if let Test::Rel(_, Atom::Var(number)) = test {
            if !is_known(bound, pattern, part, *number) {
                return Some(*number);
            }
        }
    }
    None
}

/// The first variable of a pattern's relations that is not known where it stands.
pub(crate) fn missing_in(bound: &Marks, pattern: &Pattern) -> Option<u32>
    ensures { result ≡ missing_in (members bound.now.marks) pattern.now }
{
    let missing = missing_at(bound, pattern, Part::Id);
    if missing.is_some() {
        return missing;
    }
    let missing = missing_at(bound, pattern, Part::Attr);
    if missing.is_some() {
        return missing;
    }
    missing_at(bound, pattern, Part::Value)
}

/// Whether a pattern is marked `state`, or its identifier is bound.
pub(crate) fn is_linked(bound: &Marks, pattern: &Pattern) -> bool
    ensures { result ≡ is_linked (members bound.now.marks) pattern.now }
{
    pattern.state || has_bound(bound, &pattern.id)
}

/// Whether a plain variable of a field is bound.
fn has_bound(bound: &Marks, field: &Field) -> bool
    ensures { result ≡ list_any (is_among (members bound.now.marks)) (plain_in field.now) }
{
    'tests: for test in field.tests.as_slice() {
        if let Test::Plain(Atom::Var(number)) = test {
            if is_bound(bound, *number) {
                return true;
            }
        }
    }
    false
}

// Patterns and elements of the top state.
ghost use Rattle.std.specs.Prelude.{◌≡◌, ◌<◌, false, [], ◌∷◌, IfOk, IsTrue};
ghost use Rattle.soar_rule.specs.Below.{cond_below};
ghost use Rattle.soar_rule.specs.Conditions.{condition, positive, negated};
ghost use Rattle.soar_rule.specs.declared.cond.Atom.TheVariants.{Var as VarOf};
ghost use Rattle.soar_rule.specs.declared.cond.Test.TheVariants.{Plain as PlainOf};
ghost use Rattle.defs_match.specs.Worked.{of_top, pattern_of};

use super::rows::S1;
use soar_rule::{Atom, Cond, Field, Pattern, Test};
use soar_sym::{List, NoMemory, Sym};
use soar_wm::Element;
use std::alloc::Global;

/// An element of the top state.
pub fn top(tag: u32, attr: u32, value: Sym) -> Element
    ensures { result ≡ of_top tag attr value }
{
    Element {
        tag,
        id: S1,
        attr: Sym::Word(attr),
        value,
        accept: false,
        of_state: true,
    }
}

pub fn variable(number: u32) -> Test
    ensures { result ≡ PlainOf (VarOf number) }
{
    Test::Plain(Atom::Var(number))
}

/// A pattern with variable 0 as its identifier.
pub fn pattern(alloc: Global, attr: u32, value: Vec<Test>) -> Result<Pattern, NoMemory>
    ensures { IfOk result (λ p. p ≡ pattern_of false 0 attr value.items) }
{
    Ok(Pattern {
        state: false,
        id: field(vec![in alloc; variable(0)]?),
        attr: field(vec![in alloc; Test::Plain(Atom::Const(Sym::Word(attr)))]?),
        value: field(value),
        accept: false,
    })
}

fn field(tests: Vec<Test>) -> Field
    ensures { result ≡ record { tests = tests.items } }
{
    Field {
        tests: List::from_vec(tests),
    }
}

/// Variable 0, an attribute and a variable.
pub fn takes(alloc: Global, attr: u32, value: u32) -> Result<Cond, NoMemory>
    requires { value < 10 }
    ensures seen { IfOk result (λ c. condition c ≡ positive (pattern_of false 0 attr (PlainOf (VarOf value) ∷ []))) }
    ensures below { IfOk result (λ c. IsTrue (cond_below 10 c)) }
{
    let value = vec![in alloc; variable(value)]?;
    Ok(Cond::Pos(pattern(alloc, attr, value)?))
}

/// The negation of variable 0, an attribute and a variable.
pub fn lacks(alloc: Global, attr: u32, value: u32) -> Result<Cond, NoMemory>
    requires { value < 10 }
    ensures seen { IfOk result (λ c. condition c ≡ negated (pattern_of false 0 attr (PlainOf (VarOf value) ∷ []))) }
    ensures below { IfOk result (λ c. IsTrue (cond_below 10 c)) }
{
    let value = vec![in alloc; variable(value)]?;
    Ok(Cond::Neg(pattern(alloc, attr, value)?))
}

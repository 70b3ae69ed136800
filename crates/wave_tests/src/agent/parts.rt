// An agent over the matcher by enumeration, inputs, and a rule.
ghost use Rattle.std.specs.Prelude.{◌≡◌, ◌∷◌, [], IfOk};
ghost use Rattle.soar_rule.specs.Productions.{production_seen};
ghost use Rattle.soar_cycle.specs.Calls.{IsTripleGiven};
ghost use Rattle.soar_cycle.specs.Agents.{IsSoundAgent};
ghost use Rattle.wave_tests.specs.Idle.{idle_pattern, idle_production, plain_field};
ghost use Rattle.soar_cycle.specs.Lawful.{IsOfLawful};
ghost use Rattle.soar_cycle.specs.Parts.{Parts as PartsKept};

use match_direct::Direct;
use outstanding::Compared;
use soar_cycle::Agent;
use soar_rule::{Atom, Cond, Field, Kind, Pattern, Production, Support, Test};
use soar_sym::architecture::{NIL, SUPERSTATE};
use soar_sym::{List, NoMemory, Sym, Triple};
use std::alloc::Global;

pub fn new_agent(alloc: Global) -> Result<Agent<Compared<Direct>>, NoMemory>
    ensures { IfOk result (λ agent. IsSoundAgent agent) }
{
    let matcher = Compared::new(Direct::new(alloc)?);
    Agent::new(alloc, matcher, 1)
}

/// An element of the input link, with an integer as attribute and value.
pub fn input(number: i64) -> Triple
    ensures { (p : PartsKept) → IsOfLawful p → IsTripleGiven p result }
{
    Triple {
        id: Sym::Ident {
            letter: b'I',
            number: 2,
        },
        attr: Sym::Int(number),
        value: Sym::Int(number),
        accept: false,
    }
}

/// The name of the rule.
pub const NAME: Sym = Sym::Word(1);

/// A rule that matches the top state alone, and does nothing. It needs the words of the architecture alone.
pub fn production(alloc: Global) -> Result<Production, NoMemory>
    ensures { IfOk result (λ production. production_seen production ≡ idle_production) }
{
    let mut vars = List::new(alloc);
    vars.push(Sym::Word(2))?;
    let mut conds = List::new(alloc);
    conds.push(Cond::Pos(pattern(alloc)?))?;
    Ok(Production {
        name: NAME,
        doc: None,
        kind: Kind::User,
        support: Support::Unset,
        vars,
        conds,
        actions: List::new(alloc),
    })
}

/// `(state <s> ^superstate nil)`
fn pattern(alloc: Global) -> Result<Pattern, NoMemory>
    ensures { IfOk result (λ pattern. pattern ≡ idle_pattern) }
{
    Ok(Pattern {
        state: true,
        id: field(alloc, Atom::Var(0))?,
        attr: field(alloc, Atom::Const(SUPERSTATE))?,
        value: field(alloc, Atom::Const(NIL))?,
        accept: false,
    })
}

fn field(alloc: Global, atom: Atom) -> Result<Field, NoMemory>
    ensures { IfOk result (λ field. field ≡ plain_field atom) }
{
    let mut tests = List::new(alloc);
    tests.push(Test::Plain(atom))?;
    Ok(Field { tests })
}

// Productions of ten variables.
ghost use Rattle.std.specs.Prelude.{◌<◌, IfOk, IsTrue};
ghost use Rattle.soar_rule.specs.Below.{actions_below, cond_below, conds_below};

use super::rows::{conds_of, pattern};
use soar_rule::{Action, Atom, Cond, Kind, Production, Relation, Support, Test};
use soar_sym::{List, NoMemory, Sym, Text};
use std::alloc::Global;

pub fn production(
    alloc: Global,
    conds: List<Cond>,
    actions: List<Action>,
) -> Result<Production, NoMemory>
    requires conds { IsTrue (conds_below 10 conds) }
    requires actions { IsTrue (actions_below 10 actions) }
{
    let doc = Text::from_str(alloc, "ten variables")?;
    let vars = List::from_slice(alloc, &[Sym::Word(0); 10])?;
    Ok(Production {
        name: Sym::Word(24),
        doc: Some(doc),
        kind: Kind::Chunk,
        support: Support::Unset,
        vars,
        conds,
        actions,
    })
}

/// `(<id> ^1 <> <value>)` within so many conjunctive negations.
pub fn buried(alloc: Global, depth: usize, id: u32, value: u32) -> Result<Cond, NoMemory>
    requires id { id < 10 }
    requires value { value < 10 }
    ensures { IfOk result (λ c. IsTrue (cond_below 10 c)) }
{
    let differs = Test::Rel(Relation::Differ, Atom::Var(value));
    let mut cond = Cond::Pos(pattern(alloc, id, 1, differs)?);
    'negations: for _ in 0..depth {
        cond = Cond::Conj(List::from_vec(vec![in alloc; cond]?));
    }
    Ok(cond)
}

/// The conditions of rows, and one behind them.
pub fn with_last(alloc: Global, rows: &[[u8; 4]], last: Cond) -> Result<List<Cond>, NoMemory>
    requires { IsTrue (cond_below 10 last) }
    ensures { IfOk result (λ conds. IsTrue (conds_below 10 conds)) }
{
    let mut conds = conds_of(alloc, rows)?;
    conds.push(last)?;
    Ok(conds)
}

/// The negation of these conditions.
pub fn conjunctive(inside: List<Cond>) -> Cond
    requires { IsTrue (conds_below 10 inside) }
    ensures { IsTrue (cond_below 10 result) }
{
    Cond::Conj(inside)
}

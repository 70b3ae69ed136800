// The nodes on the way of conditions.
ghost use Rattle.std.specs.Prelude.{◌≡◌, false, OnOk, IfOk};
ghost use Rattle.soar_rule.specs.Conditions.{condition, conditions, negated};
ghost use Rattle.node_table.specs.declared.node.Step.TheVariants.{Join, Negation};
ghost use Rattle.rete_beta.specs.Joins.{node_at, IsLive};
ghost use Rattle.rete_net.specs.Leading.{IsMade, Leads, LeadsBy};
ghost use Rattle.rete_net.specs.Requests.{AsksFor};

use rete_beta::Joins;
use soar_rule::{Cond, Pattern};
use soar_sym::{List, NoMemory};

/// Asks for the join of a node and a pattern.
fn ask_join(
    joins: &mut Joins,
    parent: usize,
    pattern: &Pattern,
    nodes: &mut List<usize>,
) -> Result<usize, NoMemory>
    requires works { joins.old.failed ≡ false }
    requires live { IsLive joins.old parent }
    ensures works { OnOk result (joins.new.failed ≡ false) }
    ensures asks { IfOk result (λ n. AsksFor (IsMade parent (Join pattern.now)) (node_at joins.old) (node_at joins.new) nodes.old nodes.new n) }
    ensures elements { OnOk result (joins.new.elements ≡ joins.old.elements) }
{
    let n = joins.node(parent, pattern)?;
    nodes.push(n)?;
    Ok(n)
}

/// Asks for the negation of a node behind another.
fn ask_negation(
    joins: &mut Joins,
    parent: usize,
    inner: usize,
    nodes: &mut List<usize>,
) -> Result<usize, NoMemory>
    requires works { joins.old.failed ≡ false }
    requires live { IsLive joins.old parent }
    requires inner { IsLive joins.old inner }
    ensures works { OnOk result (joins.new.failed ≡ false) }
    ensures asks { IfOk result (λ n. AsksFor (IsMade parent (Negation inner)) (node_at joins.old) (node_at joins.new) nodes.old nodes.new n) }
    ensures elements { OnOk result (joins.new.elements ≡ joins.old.elements) }
{
    let n = joins.negation(parent, inner)?;
    nodes.push(n)?;
    Ok(n)
}

/// Asks for a join, and for its negation behind the same node.
fn ask_negated(
    joins: &mut Joins,
    parent: usize,
    pattern: &Pattern,
    nodes: &mut List<usize>,
) -> Result<usize, NoMemory>
    requires works { joins.old.failed ≡ false }
    requires live { IsLive joins.old parent }
    ensures works { OnOk result (joins.new.failed ≡ false) }
    ensures asks { IfOk result (λ n. AsksFor (λ keys l m. LeadsBy keys (negated pattern.now) parent l m) (node_at joins.old) (node_at joins.new) nodes.old nodes.new n) }
    ensures elements { OnOk result (joins.new.elements ≡ joins.old.elements) }
{
    let inner = ask_join(joins, parent, pattern, nodes)?;
    ask_negation(joins, parent, inner, nodes)
}

/// Asks for the nodes of conditions behind a node, and answers the last of them.
#[cycle(asking)]
pub fn ask_all(
    joins: &mut Joins,
    parent: usize,
    conds: &[Cond],
    nodes: &mut List<usize>,
) -> Result<usize, NoMemory>
    requires works { joins.old.failed ≡ false }
    requires live { IsLive joins.old parent }
    ensures works { OnOk result (joins.new.failed ≡ false) }
    ensures asks { IfOk result (λ n. AsksFor (λ keys l m. Leads keys (conditions conds.now) parent l m) (node_at joins.old) (node_at joins.new) nodes.old nodes.new n) }
    ensures elements { OnOk result (joins.new.elements ≡ joins.old.elements) }
{
    let mut at = parent;
    'conds: for cond in conds {
        at = ask_one(joins, at, cond, nodes)?;
    }
    Ok(at)
}

/// Asks for the nodes of a condition behind a node, and answers the last of them.
#[cycle(asking)]
fn ask_one(
    joins: &mut Joins,
    parent: usize,
    cond: &Cond,
    nodes: &mut List<usize>,
) -> Result<usize, NoMemory>
    requires works { joins.old.failed ≡ false }
    requires live { IsLive joins.old parent }
    ensures works { OnOk result (joins.new.failed ≡ false) }
    ensures asks { IfOk result (λ n. AsksFor (λ keys l m. LeadsBy keys (condition cond.now) parent l m) (node_at joins.old) (node_at joins.new) nodes.old nodes.new n) }
    ensures elements { OnOk result (joins.new.elements ≡ joins.old.elements) }
{
    match cond {
        Cond::Pos(pattern) => ask_join(joins, parent, pattern, nodes),
        Cond::Neg(pattern) => ask_negated(joins, parent, pattern, nodes),
        Cond::Conj(inside) => {
            let inner = ask_all(joins, parent, inside.as_slice(), nodes)?;
            ask_negation(joins, parent, inner, nodes)
        }
    }
}

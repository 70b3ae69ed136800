// Requests that a rule takes back.
ghost use Rattle.std.specs.Prelude.{◌≡◌, false};
ghost use Rattle.rete_beta.specs.Joins.{node_at};
ghost use Rattle.rete_net.specs.Requests.{CanDropAll, DropsAll};

use rete_beta::Joins;
use soar_sym::List;

/// Takes one request back for each of these nodes, from the last to the first. It takes no memory.
pub fn drop_all(joins: &mut Joins, nodes: List<usize>)
    requires works { joins.old.failed ≡ false }
    requires can { CanDropAll (node_at joins.old) nodes }
    ensures works { joins.new.failed ≡ false }
    ensures drops { DropsAll (node_at joins.old) (node_at joins.new) nodes }
    ensures elements { joins.new.elements ≡ joins.old.elements }
{
    let mut rest = nodes;
    'nodes: while let Some(n) = rest.pop() {
        joins.law();
        joins.drop_node(n);
    }
}

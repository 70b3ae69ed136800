// Reads productions, and nothing behind them.
ghost use Rattle.std.specs.Prelude.{◌≡◌, true, IfOk};
ghost use Rattle.defs_read.specs.ReadingActions.{tree_of};
ghost use Rattle.defs_read.specs.Sayings.{AreTokensKnown, sayings};
ghost use Rattle.tree_parts.specs.Known.{is_tree_known};
ghost use Rattle.soar_tree.specs.Answers.{IsTree};

use crate::production::production;
use defs_text::Token;
use soar_sym::SymTable;
use std::alloc::Global;
use tree_parts::{Reader, Stop, Tree};

/// Reads the tree that the tokens spell, all of them (Soar manual, chapter 3, production syntax), or tells the first token with which no production goes on.
/// The tokens of words and of variables must hold words of the table: neither identifiers nor integers.
#[tactic(auto, unfolding(defs_read::specs::ReadingActions::tree_of))]
pub fn read_tree(alloc: Global, table: &SymTable, tokens: &[Token]) -> Result<Tree, Stop>
    requires { AreTokensKnown table.now tokens.now }
    ensures tree { IsTree table.now (tree_of (sayings table.now tokens.now)) result }
    ensures known { IfOk result (λ tree. is_tree_known table.now tree ≡ true) }
{
    let reader = Reader { alloc, table };
    let (tree, rest) = production(&reader, tokens)?;
    if rest.is_empty() {
        Ok(tree)
    } else {
        Err(Stop::Unexpected(rest.len()))
    }
}

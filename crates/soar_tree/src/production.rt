// Reads productions.
ghost use Rattle.std.specs.Prelude.{◌≡◌, map, true, IfOk};
ghost use Rattle.std.specs.List.{list_all};
ghost use Rattle.defs_read.specs.ReadingActions.{production_at};
ghost use Rattle.defs_read.specs.Sayings.{is_word_known, AreTokensKnown};
ghost use Rattle.tree_parts.specs.Known.{is_action_known, is_part_known, is_tree_known};
ghost use Rattle.tree_parts.specs.Reading.{IsLater, Reads};
ghost use Rattle.tree_parts.specs.Seen.{action_seen, part_seen, tree_seen};
ghost use Rattle.soar_tree.specs.Reading.{actions_behind, conditions_behind, ending_at};

use crate::action::actions;
use crate::part::{part, parts};
use defs_text::Token;
use soar_sym::{List, Sym, Text};
use tree_parts::{ActionTree, Flag, Part, Reader, Stop, Tree};

/// How many brackets may be open at once, without the outer brace.
const MOST_OPEN: usize = 64;

/// How many more may be open inside an action.
const MOST_OPEN_INSIDE: usize = MOST_OPEN - 1;

/// What stands in front of the conditions.
#[derive(Drop)]
pub struct Head {
    pub name: Sym,
    pub bare: bool,
    pub doc: Option<Text>,
    pub flags: List<Flag>,
}

/// `sp {name doc flags conditions --> actions}`
pub fn production<'a>(reader: &Reader<'_>, tokens: &'a [Token]) -> Result<(Tree, &'a [Token]), Stop>
    requires { AreTokensKnown reader.now tokens.now }
    ensures gives { Reads tree_seen production_at reader.now tokens.now result }
    ensures known { IfOk result (λ x. is_tree_known reader.now x.0 ≡ true) }
    ensures rest { IfOk result (λ x. IsLater reader.now tokens.now x.1.now) }
{
    let rest = reader.bare(tokens, "sp")?;
    let rest = reader.mark(rest, b'{')?;
    let ((name, bare), rest) = reader.name(rest)?;
    let (doc, rest) = reader.documentation(rest)?;
    let (flags, rest) = reader.flags(rest)?;
    let head = Head {
        name,
        bare,
        doc,
        flags,
    };
    conditions_behind(reader, head, rest)
}

/// `conditions --> actions}`, and the tree with what stood in front.
fn conditions_behind<'a>(
    reader: &Reader<'_>,
    head: Head,
    tokens: &'a [Token],
) -> Result<(Tree, &'a [Token]), Stop>
    requires tokens { AreTokensKnown reader.now tokens.now }
    requires name { is_word_known reader.now head.name ≡ true }
    ensures gives { Reads tree_seen (conditions_behind reader.now head) reader.now tokens.now result }
    ensures known { IfOk result (λ x. is_tree_known reader.now x.0 ≡ true) }
    ensures rest { IfOk result (λ x. IsLater reader.now tokens.now x.1.now) }
{
    let (part, rest) = part(reader, MOST_OPEN, tokens)?;
    let (parts, rest) = parts(reader, MOST_OPEN, rest)?;
    actions_behind(reader, head, part, parts, rest)
}

/// `--> actions}`, and the tree with what stood in front.
#[tactic(auto, using(crate::proofs::EndingLaws::behind_ending))]
fn actions_behind<'a>(
    reader: &Reader<'_>,
    head: Head,
    part: Part,
    parts: List<Part>,
    tokens: &'a [Token],
) -> Result<(Tree, &'a [Token]), Stop>
    requires tokens { AreTokensKnown reader.now tokens.now }
    requires name { is_word_known reader.now head.name ≡ true }
    requires part { is_part_known reader.now part ≡ true }
    requires parts { list_all (is_part_known reader.now) parts ≡ true }
    ensures gives { Reads tree_seen (actions_behind reader.now head (part_seen reader.now part) (map (part_seen reader.now) parts)) reader.now tokens.now result }
    ensures known { IfOk result (λ x. is_tree_known reader.now x.0 ≡ true) }
    ensures rest { IfOk result (λ x. IsLater reader.now tokens.now x.1.now) }
{
    let (actions, rest) = ending(reader, tokens)?;
    Ok((
        Tree {
            name: head.name,
            bare: head.bare,
            doc: head.doc,
            flags: head.flags,
            part,
            parts,
            actions,
        },
        rest,
    ))
}

/// `--> actions}`
fn ending<'a>(
    reader: &Reader<'_>,
    tokens: &'a [Token],
) -> Result<(List<ActionTree>, &'a [Token]), Stop>
    requires { AreTokensKnown reader.now tokens.now }
    ensures gives { Reads (λ words. map (action_seen words)) ending_at reader.now tokens.now result }
    ensures known { IfOk result (λ x. list_all (is_action_known reader.now) x.0 ≡ true) }
    ensures rest { IfOk result (λ x. IsLater reader.now tokens.now x.1.now) }
{
    let rest = reader.arrow(tokens)?;
    let (actions, rest) = actions(reader, MOST_OPEN_INSIDE, rest)?;
    let rest = reader.mark(rest, b'}')?;
    Ok((actions, rest))
}

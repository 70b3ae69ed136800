// Reads actions.
ghost use Rattle.std.specs.Prelude.{◌≡◌, map, true, IfOk};
ghost use Rattle.std.specs.List.{list_all};
ghost use Rattle.defs_read.specs.Readers.{many};
ghost use Rattle.defs_read.specs.ReadingActions.{action_at, halting_at, inside_at, making_at, writing_at};
ghost use Rattle.defs_read.specs.ReadingTokens.{is_mark};
ghost use Rattle.defs_read.specs.Sayings.{AreTokensKnown};
ghost use Rattle.tree_parts.specs.Known.{is_action_known};
ghost use Rattle.tree_parts.specs.Reading.{IsLater, IsRest, Reads};
ghost use Rattle.tree_parts.specs.Seen.{action_seen};

use crate::make::{make, makes};
use defs_text::Token;
use soar_sym::List;
use tree_parts::{ActionTree, MakeTree, Reader, Stop, begins_mark};

/// Actions, as many as there are. So many more brackets may be open inside each.
pub fn actions<'a>(
    reader: &Reader<'_>,
    depth: usize,
    tokens: &'a [Token],
) -> Result<(List<ActionTree>, &'a [Token]), Stop>
    requires { AreTokensKnown reader.now tokens.now }
    ensures gives { Reads (λ words. map (action_seen words)) (many (is_mark 40) (action_at depth)) reader.now tokens.now result }
    ensures known { IfOk result (λ x. list_all (is_action_known reader.now) x.0 ≡ true) }
    ensures rest { IfOk result (λ x. IsRest reader.now tokens.now x.1.now) }
{
    let mut actions = List::new(reader.alloc);
    let mut rest = tokens;
    'actions: while begins_mark(rest, b'(') {
        match action(reader, depth, rest) {
            Ok((action, after)) => {
                actions.push(action)?;
                rest = after;
            }
            Err(stop) => return Err(stop),
        }
    }
    Ok((actions, rest))
}

/// An action in its parentheses.
fn action<'a>(
    reader: &Reader<'_>,
    depth: usize,
    tokens: &'a [Token],
) -> Result<(ActionTree, &'a [Token]), Stop>
    requires { AreTokensKnown reader.now tokens.now }
    ensures gives { Reads action_seen (action_at depth) reader.now tokens.now result }
    ensures known { IfOk result (λ x. is_action_known reader.now x.0 ≡ true) }
    ensures rest { IfOk result (λ x. IsLater reader.now tokens.now x.1.now) }
{
    let rest = reader.mark(tokens, b'(')?;
    let (action, rest) = inside(reader, depth, rest)?;
    let rest = reader.mark(rest, b')')?;
    Ok((action, rest))
}

/// What stands in the parentheses of an action.
fn inside<'a>(
    reader: &Reader<'_>,
    depth: usize,
    tokens: &'a [Token],
) -> Result<(ActionTree, &'a [Token]), Stop>
    requires { AreTokensKnown reader.now tokens.now }
    ensures gives { Reads action_seen (inside_at depth) reader.now tokens.now result }
    ensures known { IfOk result (λ x. is_action_known reader.now x.0 ≡ true) }
    ensures rest { IfOk result (λ x. IsLater reader.now tokens.now x.1.now) }
{
    if reader.begins_bare(tokens, "write") {
        writing(reader, depth, tokens)
    } else if reader.begins_bare(tokens, "halt") {
        halting(reader, tokens)
    } else {
        making(reader, depth, tokens)
    }
}

/// `write`, and the values that are written.
fn writing<'a>(
    reader: &Reader<'_>,
    depth: usize,
    tokens: &'a [Token],
) -> Result<(ActionTree, &'a [Token]), Stop>
    requires { AreTokensKnown reader.now tokens.now }
    ensures gives { Reads action_seen (writing_at depth) reader.now tokens.now result }
    ensures known { IfOk result (λ x. is_action_known reader.now x.0 ≡ true) }
    ensures rest { IfOk result (λ x. IsLater reader.now tokens.now x.1.now) }
{
    let rest = reader.bare(tokens, "write")?;
    let (values, rest) = reader.terms(depth, rest)?;
    Ok((ActionTree::Writing(values), rest))
}

/// `halt`
fn halting<'a>(reader: &Reader<'_>, tokens: &'a [Token]) -> Result<(ActionTree, &'a [Token]), Stop>
    requires { AreTokensKnown reader.now tokens.now }
    ensures gives { Reads action_seen halting_at reader.now tokens.now result }
    ensures known { IfOk result (λ x. is_action_known reader.now x.0 ≡ true) }
    ensures rest { IfOk result (λ x. IsLater reader.now tokens.now x.1.now) }
{
    let rest = reader.bare(tokens, "halt")?;
    Ok((ActionTree::Halting, rest))
}

/// A variable, and what is made of its identifier.
fn making<'a>(
    reader: &Reader<'_>,
    depth: usize,
    tokens: &'a [Token],
) -> Result<(ActionTree, &'a [Token]), Stop>
    requires { AreTokensKnown reader.now tokens.now }
    ensures gives { Reads action_seen (making_at depth) reader.now tokens.now result }
    ensures known { IfOk result (λ x. is_action_known reader.now x.0 ≡ true) }
    ensures rest { IfOk result (λ x. IsLater reader.now tokens.now x.1.now) }
{
    let (variable, rest) = reader.variable(tokens)?;
    let (make, rest) = make(reader, depth, rest)?;
    let (makes, rest) = makes(reader, depth, rest)?;
    Ok((
        ActionTree::Making(MakeTree {
            variable,
            make,
            makes,
        }),
        rest,
    ))
}

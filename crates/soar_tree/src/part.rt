// Reads conditions.
ghost use Rattle.std.specs.Prelude.{◌≡◌, ◌∷◌, map, true, IfOk};
ghost use Rattle.std.specs.List.{list_all};
ghost use Rattle.soar_sym.specs.Words.{Texts};
ghost use Rattle.defs_read.specs.Readers.{many};
ghost use Rattle.defs_read.specs.Reading.{begins_part, grouped_at, joined_at, part_at};
ghost use Rattle.defs_read.specs.Sayings.{sayings, AreTokensKnown};
ghost use Rattle.tree_parts.specs.Known.{is_part_known};
ghost use Rattle.tree_parts.specs.Reading.{IsLater, IsRest, Reads, Stops};
ghost use Rattle.tree_parts.specs.Seen.{part_seen};
ghost use Rattle.soar_tree.specs.Reading.{nothing_at};

use crate::group::group;
use defs_text::Token;
use soar_sym::List;
use std::alloc::AllocFailed;
use tree_parts::{MINUS, Part, Reader, Stop, begins_mark, begins_part, opens};

/// A condition, where so many more brackets may be open.
#[cycle(parts)]
#[tactic(auto, unfolding(defs_read::specs::Reading::part_at))]
pub fn part<'a>(
    reader: &Reader<'_>,
    depth: usize,
    tokens: &'a [Token],
) -> Result<(Part, &'a [Token]), Stop>
    requires { AreTokensKnown reader.now tokens.now }
    ensures gives { Reads part_seen (part_at depth) reader.now tokens.now result }
    ensures known { IfOk result (λ x. is_part_known reader.now x.0 ≡ true) }
    ensures rest { IfOk result (λ x. IsLater reader.now tokens.now x.1.now) }
{
    let (negative, rest) = reader.sign_flag(tokens, MINUS);
    if depth == 0 {
        return Err(no_room(rest));
    }
    if begins_mark(rest, b'(') {
        grouped(reader, depth - 1, negative, rest)
    } else {
        joined(reader, depth - 1, negative, rest)
    }
}

/// A group as a condition.
fn grouped<'a>(
    reader: &Reader<'_>,
    depth: usize,
    negative: bool,
    tokens: &'a [Token],
) -> Result<(Part, &'a [Token]), Stop>
    requires { AreTokensKnown reader.now tokens.now }
    ensures gives { Reads part_seen (grouped_at depth negative) reader.now tokens.now result }
    ensures known { IfOk result (λ x. is_part_known reader.now x.0 ≡ true) }
    ensures rest { IfOk result (λ x. IsLater reader.now tokens.now x.1.now) }
{
    let (group, rest) = group(reader, depth, tokens)?;
    Ok((Part::Grouped(negative, group), rest))
}

/// Conditions between braces, one or more.
#[cycle(parts)]
fn joined<'a>(
    reader: &Reader<'_>,
    depth: usize,
    negative: bool,
    tokens: &'a [Token],
) -> Result<(Part, &'a [Token]), Stop>
    requires { AreTokensKnown reader.now tokens.now }
    ensures gives { Reads part_seen (joined_at (part_at depth) negative) reader.now tokens.now result }
    ensures known { IfOk result (λ x. is_part_known reader.now x.0 ≡ true) }
    ensures rest { IfOk result (λ x. IsLater reader.now tokens.now x.1.now) }
{
    let rest = reader.mark(tokens, b'{')?;
    let (first, rest) = part(reader, depth, rest)?;
    let (others, rest) = parts(reader, depth, rest)?;
    let rest = reader.mark(rest, b'}')?;
    let parts = with_first(first, others)?;
    Ok((Part::Joined(negative, parts), rest))
}

/// Conditions, as many as there are.
#[cycle(parts)]
pub fn parts<'a>(
    reader: &Reader<'_>,
    depth: usize,
    tokens: &'a [Token],
) -> Result<(List<Part>, &'a [Token]), Stop>
    requires { AreTokensKnown reader.now tokens.now }
    ensures gives { Reads (λ words. map (part_seen words)) (many begins_part (part_at depth)) reader.now tokens.now result }
    ensures known { IfOk result (λ x. list_all (is_part_known reader.now) x.0 ≡ true) }
    ensures rest { IfOk result (λ x. IsRest reader.now tokens.now x.1.now) }
{
    let mut parts = List::new(reader.alloc);
    let mut rest = tokens;
    'parts: while begins_part(rest) {
        match part(reader, depth, rest) {
            Ok((part, after)) => {
                parts.push(part)?;
                rest = after;
            }
            Err(stop) => return Err(stop),
        }
    }
    Ok((parts, rest))
}

/// Why no condition can be read where no more brackets may be open.
fn no_room(tokens: &[Token]) -> Stop
    ensures { (words : Texts) → Stops result (nothing_at (sayings words tokens.now)) }
{
    if opens(tokens) {
        Stop::Deep(tokens.len())
    } else {
        Stop::Unexpected(tokens.len())
    }
}

/// A list with one more in front.
fn with_first(first: Part, others: List<Part>) -> Result<List<Part>, AllocFailed<Part>>
    ensures { IfOk result (λ all. all ≡ first ∷ others) }
{
    let mut all = others.into_vec();
    all.insert(0, first)?;
    Ok(List::from_vec(all))
}

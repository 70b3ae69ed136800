// Reads attributes that are made.
ghost use Rattle.std.specs.Prelude.{◌≡◌, map, true, IfOk};
ghost use Rattle.std.specs.List.{list_all};
ghost use Rattle.defs_read.specs.Readers.{many};
ghost use Rattle.defs_read.specs.ReadingActions.{make_at, term_step_at};
ghost use Rattle.defs_read.specs.ReadingTokens.{is_mark};
ghost use Rattle.defs_read.specs.Sayings.{AreTokensKnown};
ghost use Rattle.tree_parts.specs.Known.{is_attribute_make_known, is_term_known};
ghost use Rattle.tree_parts.specs.Reading.{IsLater, IsRest, Reads};
ghost use Rattle.tree_parts.specs.Seen.{attribute_make_seen, term_seen};

use defs_text::Token;
use soar_sym::List;
use tree_parts::{AttributeMake, Reader, Stop, Term, begins_mark};

/// Attributes that are made, as many as there are.
pub fn makes<'a>(
    reader: &Reader<'_>,
    depth: usize,
    tokens: &'a [Token],
) -> Result<(List<AttributeMake>, &'a [Token]), Stop>
    requires { AreTokensKnown reader.now tokens.now }
    ensures gives { Reads (λ words. map (attribute_make_seen words)) (many (is_mark 94) (make_at depth)) reader.now tokens.now result }
    ensures known { IfOk result (λ x. list_all (is_attribute_make_known reader.now) x.0 ≡ true) }
    ensures rest { IfOk result (λ x. IsRest reader.now tokens.now x.1.now) }
{
    let mut makes = List::new(reader.alloc);
    let mut rest = tokens;
    'makes: while begins_mark(rest, b'^') {
        match make(reader, depth, rest) {
            Ok((make, after)) => {
                makes.push(make)?;
                rest = after;
            }
            Err(stop) => return Err(stop),
        }
    }
    Ok((makes, rest))
}

/// `^attribute.path item items`
pub fn make<'a>(
    reader: &Reader<'_>,
    depth: usize,
    tokens: &'a [Token],
) -> Result<(AttributeMake, &'a [Token]), Stop>
    requires { AreTokensKnown reader.now tokens.now }
    ensures gives { Reads attribute_make_seen (make_at depth) reader.now tokens.now result }
    ensures known { IfOk result (λ x. is_attribute_make_known reader.now x.0 ≡ true) }
    ensures rest { IfOk result (λ x. IsLater reader.now tokens.now x.1.now) }
{
    let rest = reader.mark(tokens, b'^')?;
    let (attribute, rest) = reader.term(depth, rest)?;
    let (path, rest) = term_path(reader, depth, rest)?;
    let (item, rest) = reader.item(depth, rest)?;
    let (items, rest) = reader.items(depth, rest)?;
    Ok((
        AttributeMake {
            attribute,
            path,
            item,
            items,
        },
        rest,
    ))
}

/// Values behind dots, as many as there are.
fn term_path<'a>(
    reader: &Reader<'_>,
    depth: usize,
    tokens: &'a [Token],
) -> Result<(List<Term>, &'a [Token]), Stop>
    requires { AreTokensKnown reader.now tokens.now }
    ensures gives { Reads (λ words. map (term_seen words)) (many (is_mark 46) (term_step_at depth)) reader.now tokens.now result }
    ensures known { IfOk result (λ x. list_all (is_term_known reader.now) x.0 ≡ true) }
    ensures rest { IfOk result (λ x. IsRest reader.now tokens.now x.1.now) }
{
    let mut path = List::new(reader.alloc);
    let mut rest = tokens;
    'path: while begins_mark(rest, b'.') {
        match term_step(reader, depth, rest) {
            Ok((term, after)) => {
                path.push(term)?;
                rest = after;
            }
            Err(stop) => return Err(stop),
        }
    }
    Ok((path, rest))
}

/// A dot, and the value behind it.
fn term_step<'a>(
    reader: &Reader<'_>,
    depth: usize,
    tokens: &'a [Token],
) -> Result<(Term, &'a [Token]), Stop>
    requires { AreTokensKnown reader.now tokens.now }
    ensures gives { Reads term_seen (term_step_at depth) reader.now tokens.now result }
    ensures known { IfOk result (λ x. is_term_known reader.now x.0 ≡ true) }
    ensures rest { IfOk result (λ x. IsLater reader.now tokens.now x.1.now) }
{
    let rest = reader.mark(tokens, b'.')?;
    reader.term(depth, rest)
}

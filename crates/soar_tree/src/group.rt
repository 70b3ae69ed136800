// Reads groups of tests.
ghost use Rattle.std.specs.Prelude.{◌≡◌, map, true, IfOk, option_map};
ghost use Rattle.std.specs.List.{list_all};
ghost use Rattle.defs_read.specs.Readers.{many, optional};
ghost use Rattle.defs_read.specs.Reading.{attribute_test_at, begins_test, group_at};
ghost use Rattle.defs_read.specs.ReadingFields.{begins_field, field_at};
ghost use Rattle.defs_read.specs.Sayings.{AreTokensKnown};
ghost use Rattle.tree_parts.specs.Known.{is_attribute_test_known, is_field_known, is_group_known, is_option_known};
ghost use Rattle.tree_parts.specs.Reading.{IsLater, IsRest, Reads};
ghost use Rattle.tree_parts.specs.Seen.{attribute_test_seen, field_seen, group_seen};

use crate::attribute_test::attribute_test;
use defs_text::Token;
use soar_sym::List;
use tree_parts::{AttributeTest, FieldTree, Group, Reader, Stop, begins_field, begins_test};

/// `(state field tests)`
pub fn group<'a>(
    reader: &Reader<'_>,
    depth: usize,
    tokens: &'a [Token],
) -> Result<(Group, &'a [Token]), Stop>
    requires { AreTokensKnown reader.now tokens.now }
    ensures gives { Reads group_seen (group_at depth) reader.now tokens.now result }
    ensures known { IfOk result (λ x. is_group_known reader.now x.0 ≡ true) }
    ensures rest { IfOk result (λ x. IsLater reader.now tokens.now x.1.now) }
{
    let rest = reader.mark(tokens, b'(')?;
    let (state, rest) = reader.bare_flag(rest, "state");
    let (field, rest) = optional_field(reader, depth, rest)?;
    let (tests, rest) = attribute_tests(reader, depth, rest)?;
    let rest = reader.mark(rest, b')')?;
    Ok((
        Group {
            state,
            field,
            tests,
        },
        rest,
    ))
}

/// A field, where one begins.
fn optional_field<'a>(
    reader: &Reader<'_>,
    depth: usize,
    tokens: &'a [Token],
) -> Result<(Option<FieldTree>, &'a [Token]), Stop>
    requires { AreTokensKnown reader.now tokens.now }
    ensures gives { Reads (λ words. option_map (field_seen words)) (optional begins_field (field_at depth)) reader.now tokens.now result }
    ensures known { IfOk result (λ x. is_option_known (is_field_known reader.now) x.0 ≡ true) }
    ensures rest { IfOk result (λ x. IsRest reader.now tokens.now x.1.now) }
{
    if !begins_field(tokens) {
        return Ok((None, tokens));
    }
    let (field, rest) = reader.field(depth, tokens)?;
    Ok((Some(field), rest))
}

/// Tests of attributes, as many as there are.
fn attribute_tests<'a>(
    reader: &Reader<'_>,
    depth: usize,
    tokens: &'a [Token],
) -> Result<(List<AttributeTest>, &'a [Token]), Stop>
    requires { AreTokensKnown reader.now tokens.now }
    ensures gives { Reads (λ words. map (attribute_test_seen words)) (many begins_test (attribute_test_at depth)) reader.now tokens.now result }
    ensures known { IfOk result (λ x. list_all (is_attribute_test_known reader.now) x.0 ≡ true) }
    ensures rest { IfOk result (λ x. IsRest reader.now tokens.now x.1.now) }
{
    let mut tests = List::new(reader.alloc);
    let mut rest = tokens;
    'tests: while begins_test(rest) {
        match attribute_test(reader, depth, rest) {
            Ok((test, after)) => {
                tests.push(test)?;
                rest = after;
            }
            Err(stop) => return Err(stop),
        }
    }
    Ok((tests, rest))
}

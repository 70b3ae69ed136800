// Reads tests of attributes.
ghost use Rattle.std.specs.Prelude.{◌≡◌, map, true, IfOk};
ghost use Rattle.std.specs.List.{list_all};
ghost use Rattle.defs_read.specs.Readers.{many};
ghost use Rattle.defs_read.specs.Reading.{attribute_test_at, step_at, value_test_at};
ghost use Rattle.defs_read.specs.ReadingFields.{begins_field};
ghost use Rattle.defs_read.specs.ReadingTokens.{is_mark};
ghost use Rattle.defs_read.specs.Sayings.{AreTokensKnown};
ghost use Rattle.tree_parts.specs.Known.{is_attribute_test_known, is_field_known, is_value_test_known};
ghost use Rattle.tree_parts.specs.Reading.{IsLater, IsRest, Reads};
ghost use Rattle.tree_parts.specs.Seen.{attribute_test_seen, field_seen, value_test_seen};

use defs_text::Token;
use soar_sym::List;
use tree_parts::{
    AttributeTest, FieldTree, MINUS, PLUS, Reader, Stop, ValueTest, begins_field, begins_mark,
};

/// `-^attribute.path values`
pub fn attribute_test<'a>(
    reader: &Reader<'_>,
    depth: usize,
    tokens: &'a [Token],
) -> Result<(AttributeTest, &'a [Token]), Stop>
    requires { AreTokensKnown reader.now tokens.now }
    ensures gives { Reads attribute_test_seen (attribute_test_at depth) reader.now tokens.now result }
    ensures known { IfOk result (λ x. is_attribute_test_known reader.now x.0 ≡ true) }
    ensures rest { IfOk result (λ x. IsLater reader.now tokens.now x.1.now) }
{
    let (negative, rest) = reader.sign_flag(tokens, MINUS);
    let rest = reader.mark(rest, b'^')?;
    let (attribute, rest) = reader.field(depth, rest)?;
    let (path, rest) = field_path(reader, depth, rest)?;
    let (values, rest) = value_tests(reader, depth, rest)?;
    Ok((
        AttributeTest {
            negative,
            attribute,
            path,
            values,
        },
        rest,
    ))
}

/// Fields behind dots, as many as there are.
fn field_path<'a>(
    reader: &Reader<'_>,
    depth: usize,
    tokens: &'a [Token],
) -> Result<(List<FieldTree>, &'a [Token]), Stop>
    requires { AreTokensKnown reader.now tokens.now }
    ensures gives { Reads (λ words. map (field_seen words)) (many (is_mark 46) (step_at depth)) reader.now tokens.now result }
    ensures known { IfOk result (λ x. list_all (is_field_known reader.now) x.0 ≡ true) }
    ensures rest { IfOk result (λ x. IsRest reader.now tokens.now x.1.now) }
{
    let mut path = List::new(reader.alloc);
    let mut rest = tokens;
    'path: while begins_mark(rest, b'.') {
        match field_step(reader, depth, rest) {
            Ok((field, after)) => {
                path.push(field)?;
                rest = after;
            }
            Err(stop) => return Err(stop),
        }
    }
    Ok((path, rest))
}

/// A dot, and the field behind it.
fn field_step<'a>(
    reader: &Reader<'_>,
    depth: usize,
    tokens: &'a [Token],
) -> Result<(FieldTree, &'a [Token]), Stop>
    requires { AreTokensKnown reader.now tokens.now }
    ensures gives { Reads field_seen (step_at depth) reader.now tokens.now result }
    ensures known { IfOk result (λ x. is_field_known reader.now x.0 ≡ true) }
    ensures rest { IfOk result (λ x. IsLater reader.now tokens.now x.1.now) }
{
    let rest = reader.mark(tokens, b'.')?;
    reader.field(depth, rest)
}

/// Values of an attribute, as many as there are.
fn value_tests<'a>(
    reader: &Reader<'_>,
    depth: usize,
    tokens: &'a [Token],
) -> Result<(List<ValueTest>, &'a [Token]), Stop>
    requires { AreTokensKnown reader.now tokens.now }
    ensures gives { Reads (λ words. map (value_test_seen words)) (many begins_field (value_test_at depth)) reader.now tokens.now result }
    ensures known { IfOk result (λ x. list_all (is_value_test_known reader.now) x.0 ≡ true) }
    ensures rest { IfOk result (λ x. IsRest reader.now tokens.now x.1.now) }
{
    let mut values = List::new(reader.alloc);
    let mut rest = tokens;
    'values: while begins_field(rest) {
        match value_test(reader, depth, rest) {
            Ok((value, after)) => {
                values.push(value)?;
                rest = after;
            }
            Err(stop) => return Err(stop),
        }
    }
    Ok((values, rest))
}

/// A value, and whether the acceptable mark stands behind it.
fn value_test<'a>(
    reader: &Reader<'_>,
    depth: usize,
    tokens: &'a [Token],
) -> Result<(ValueTest, &'a [Token]), Stop>
    requires { AreTokensKnown reader.now tokens.now }
    ensures gives { Reads value_test_seen (value_test_at depth) reader.now tokens.now result }
    ensures known { IfOk result (λ x. is_value_test_known reader.now x.0 ≡ true) }
    ensures rest { IfOk result (λ x. IsLater reader.now tokens.now x.1.now) }
{
    let (value, rest) = reader.field(depth, tokens)?;
    let (accept, rest) = reader.sign_flag(rest, PLUS);
    Ok((ValueTest { value, accept }, rest))
}

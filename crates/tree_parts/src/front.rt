// Questions about a token, and about the one in front.
ghost use Rattle.std.specs.Prelude.{◌≡◌};
ghost use Rattle.soar_sym.specs.Words.{Texts};
ghost use Rattle.defs_read.specs.Readers.{begins};
ghost use Rattle.defs_read.specs.Reading.{begins_part, begins_test, opens};
ghost use Rattle.defs_read.specs.ReadingActions.{begins_wish, is_comparing};
ghost use Rattle.defs_read.specs.ReadingFields.{begins_field, begins_simple};
ghost use Rattle.defs_read.specs.ReadingTokens.{is_constant, is_mark, is_open_set, is_relation, is_sign};
ghost use Rattle.defs_read.specs.ReadingValues.{begins_term};
ghost use Rattle.defs_read.specs.Sayings.{saying_of, sayings};

use defs_text::{Token, TokenKind};

/// The place of `<` among the signs.
pub const LESS: u8 = 0;

/// The place of `>` among the signs.
pub const GREATER: u8 = 1;

/// The place of `=` among the signs.
pub const EQUAL: u8 = 6;

/// The place of `+` among the signs.
pub const PLUS: u8 = 7;

/// The place of `-` among the signs.
pub const MINUS: u8 = 8;

/// How many signs are relations. They come first.
pub const RELATIONS: u8 = 7;

/// Whether a token is this mark.
pub fn is_mark(kind: &TokenKind, mark: u8) -> bool
    ensures { (words : Texts) → result ≡ is_mark mark (saying_of words kind.now) }
{
    match kind {
        TokenKind::Mark(found) => *found == mark,
        _ => false,
    }
}

/// Whether a token is this sign, by its place.
pub fn is_sign(kind: &TokenKind, place: u8) -> bool
    ensures { (words : Texts) → result ≡ is_sign place (saying_of words kind.now) }
{
    match kind {
        TokenKind::Sign(found) => *found == place,
        _ => false,
    }
}

/// Whether a token is a constant.
fn is_constant(kind: &TokenKind) -> bool
    ensures { (words : Texts) → result ≡ is_constant (saying_of words kind.now) }
{
    matches!(kind, TokenKind::Word(_, _) | TokenKind::Int(_))
}

/// Whether a token begins one test of a field.
fn is_simple_front(kind: &TokenKind) -> bool
    ensures { (words : Texts) → result ≡ begins_simple (saying_of words kind.now) }
{
    match kind {
        TokenKind::Word(_, _) | TokenKind::Int(_) | TokenKind::Var(_) | TokenKind::OpenSet => true,
        TokenKind::Sign(place) => *place < RELATIONS,
        _ => false,
    }
}

/// Whether a token begins a field.
fn is_field_front(kind: &TokenKind) -> bool
    ensures { (words : Texts) → result ≡ begins_field (saying_of words kind.now) }
{
    is_simple_front(kind) || is_mark(kind, b'{')
}

/// Whether a token begins the test of an attribute.
fn is_test_front(kind: &TokenKind) -> bool
    ensures { (words : Texts) → result ≡ begins_test (saying_of words kind.now) }
{
    is_sign(kind, MINUS) || is_mark(kind, b'^')
}

/// Whether a token opens a group, or conditions in braces.
fn is_opening(kind: &TokenKind) -> bool
    ensures { (words : Texts) → result ≡ opens (saying_of words kind.now) }
{
    is_mark(kind, b'(') || is_mark(kind, b'{')
}

/// Whether a token begins a condition.
fn is_part_front(kind: &TokenKind) -> bool
    ensures { (words : Texts) → result ≡ begins_part (saying_of words kind.now) }
{
    is_sign(kind, MINUS) || is_opening(kind)
}

/// Whether a token begins a value of an action.
fn is_term_front(kind: &TokenKind) -> bool
    ensures { (words : Texts) → result ≡ begins_term (saying_of words kind.now) }
{
    match kind {
        TokenKind::Var(_) | TokenKind::Word(_, _) | TokenKind::Int(_) => true,
        TokenKind::Mark(mark) => *mark == b'(',
        _ => false,
    }
}

/// Whether a token is the sign of a preference that compares.
fn is_comparing(kind: &TokenKind) -> bool
    ensures { (words : Texts) → result ≡ is_comparing (saying_of words kind.now) }
{
    is_sign(kind, LESS) || is_sign(kind, GREATER) || is_sign(kind, EQUAL)
}

/// Whether a token begins a preference.
fn is_wish_front(kind: &TokenKind) -> bool
    ensures { (words : Texts) → result ≡ begins_wish (saying_of words kind.now) }
{
    is_comparing(kind)
        || is_sign(kind, PLUS)
        || is_sign(kind, MINUS)
        || is_mark(kind, b'!')
        || is_mark(kind, b'~')
}

/// Whether this mark stands in front.
pub fn begins_mark(tokens: &[Token], mark: u8) -> bool
    ensures { (words : Texts) → result ≡ begins (is_mark mark) (sayings words tokens.now) }
{
    match tokens.first() {
        Some(token) => is_mark(&token.kind, mark),
        None => false,
    }
}

/// Whether `<<` stands in front.
pub fn begins_alternatives(tokens: &[Token]) -> bool
    ensures { (words : Texts) → result ≡ begins is_open_set (sayings words tokens.now) }
{
    match tokens.first() {
        Some(token) => matches!(token.kind, TokenKind::OpenSet),
        None => false,
    }
}

/// Whether a constant stands in front.
pub fn begins_constant(tokens: &[Token]) -> bool
    ensures { (words : Texts) → result ≡ begins is_constant (sayings words tokens.now) }
{
    match tokens.first() {
        Some(token) => is_constant(&token.kind),
        None => false,
    }
}

/// Whether one test of a field begins in front.
pub fn begins_simple(tokens: &[Token]) -> bool
    ensures { (words : Texts) → result ≡ begins begins_simple (sayings words tokens.now) }
{
    match tokens.first() {
        Some(token) => is_simple_front(&token.kind),
        None => false,
    }
}

/// Whether a field begins in front.
pub fn begins_field(tokens: &[Token]) -> bool
    ensures { (words : Texts) → result ≡ begins begins_field (sayings words tokens.now) }
{
    match tokens.first() {
        Some(token) => is_field_front(&token.kind),
        None => false,
    }
}

/// Whether the test of an attribute begins in front.
pub fn begins_test(tokens: &[Token]) -> bool
    ensures { (words : Texts) → result ≡ begins begins_test (sayings words tokens.now) }
{
    match tokens.first() {
        Some(token) => is_test_front(&token.kind),
        None => false,
    }
}

/// Whether the front token opens a group, or conditions in braces.
pub fn opens(tokens: &[Token]) -> bool
    ensures { (words : Texts) → result ≡ begins opens (sayings words tokens.now) }
{
    match tokens.first() {
        Some(token) => is_opening(&token.kind),
        None => false,
    }
}

/// Whether a condition begins in front.
pub fn begins_part(tokens: &[Token]) -> bool
    ensures { (words : Texts) → result ≡ begins begins_part (sayings words tokens.now) }
{
    match tokens.first() {
        Some(token) => is_part_front(&token.kind),
        None => false,
    }
}

/// Whether a value of an action begins in front.
pub fn begins_term(tokens: &[Token]) -> bool
    ensures { (words : Texts) → result ≡ begins begins_term (sayings words tokens.now) }
{
    match tokens.first() {
        Some(token) => is_term_front(&token.kind),
        None => false,
    }
}

/// Whether the sign of a preference that compares stands in front.
pub fn begins_comparing(tokens: &[Token]) -> bool
    ensures { (words : Texts) → result ≡ begins is_comparing (sayings words tokens.now) }
{
    match tokens.first() {
        Some(token) => is_comparing(&token.kind),
        None => false,
    }
}

/// Whether a preference begins in front.
pub fn begins_wish(tokens: &[Token]) -> bool
    ensures { (words : Texts) → result ≡ begins begins_wish (sayings words tokens.now) }
{
    match tokens.first() {
        Some(token) => is_wish_front(&token.kind),
        None => false,
    }
}

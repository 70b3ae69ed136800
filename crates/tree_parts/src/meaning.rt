// What a token stands for.
ghost use Rattle.std.specs.Prelude.{◌≡◌, option_map, IfSome, true};
ghost use Rattle.soar_sym.specs.Words.{Texts};
ghost use Rattle.defs_read.specs.ReadingActions.{as_comparing, as_mark_wish, as_name, as_variable};
ghost use Rattle.defs_read.specs.ReadingTokens.{as_constant, as_relation, as_single};
ghost use Rattle.defs_read.specs.Sayings.{is_word_known, saying_of, word_text, IsKindKnown};
ghost use Rattle.tree_parts.specs.Known.{is_constant_known, is_single_known, is_wish_known};
ghost use Rattle.tree_parts.specs.Seen.{constant_seen, single_seen, wish_seen};

use crate::action::WishTree;
use crate::field::{Constant, Single};
use crate::front::{EQUAL, GREATER, LESS, MINUS, PLUS, RELATIONS};
use defs_text::TokenKind;
use soar_sym::Sym;

/// A word or an integer.
pub fn constant(kind: &TokenKind) -> Option<Constant>
    ensures value { (words : Texts) → option_map (constant_seen words) result ≡ as_constant (saying_of words kind.now) }
    ensures known { (words : Texts) → IsKindKnown words kind.now → IfSome result (λ c. is_constant_known words c ≡ true) }
{
    match kind {
        TokenKind::Word(word, bare) => Some(Constant::Named(*word, *bare)),
        TokenKind::Int(value) => Some(Constant::Number(*value)),
        _ => None,
    }
}

/// A variable or a constant.
pub fn single(kind: &TokenKind) -> Option<Single>
    ensures value { (words : Texts) → option_map (single_seen words) result ≡ as_single (saying_of words kind.now) }
    ensures known { (words : Texts) → IsKindKnown words kind.now → IfSome result (λ s. is_single_known words s ≡ true) }
{
    match kind {
        TokenKind::Var(name) => Some(Single::Variable(*name)),
        TokenKind::Word(word, bare) => Some(Single::Constant(Constant::Named(*word, *bare))),
        TokenKind::Int(value) => Some(Single::Constant(Constant::Number(*value))),
        _ => None,
    }
}

/// The word of a variable's name.
pub fn variable(kind: &TokenKind) -> Option<Sym>
    ensures value { (words : Texts) → option_map (word_text words) result ≡ as_variable (saying_of words kind.now) }
    ensures known { (words : Texts) → IsKindKnown words kind.now → IfSome result (λ name. is_word_known words name ≡ true) }
{
    match kind {
        TokenKind::Var(name) => Some(*name),
        _ => None,
    }
}

/// A word, and whether it stands bare.
pub fn name(kind: &TokenKind) -> Option<(Sym, bool)>
    ensures value { (words : Texts) → option_map (λ name. (word_text words name.0, name.1)) result ≡ as_name (saying_of words kind.now) }
    ensures known { (words : Texts) → IsKindKnown words kind.now → IfSome result (λ name. is_word_known words name.0 ≡ true) }
{
    match kind {
        TokenKind::Word(word, bare) => Some((*word, *bare)),
        _ => None,
    }
}

/// The sign of a relation, by its place.
pub fn relation(kind: &TokenKind) -> Option<u8>
    ensures { (words : Texts) → result ≡ as_relation (saying_of words kind.now) }
{
    match kind {
        TokenKind::Sign(place) if *place < RELATIONS => Some(*place),
        _ => None,
    }
}

/// The sign of a preference that compares, by its place.
pub fn comparing(kind: &TokenKind) -> Option<u8>
    ensures { (words : Texts) → result ≡ as_comparing (saying_of words kind.now) }
{
    match kind {
        TokenKind::Sign(place) if *place == LESS || *place == GREATER || *place == EQUAL => {
            Some(*place)
        }
        _ => None,
    }
}

/// A preference that is one token.
pub fn mark_wish(kind: &TokenKind) -> Option<WishTree>
    ensures value { (words : Texts) → option_map (wish_seen words) result ≡ as_mark_wish (saying_of words kind.now) }
    ensures known { (words : Texts) → IfSome result (λ wish. is_wish_known words wish ≡ true) }
{
    match kind {
        TokenKind::Sign(PLUS) => Some(WishTree::Accepting),
        TokenKind::Sign(MINUS) => Some(WishTree::Rejecting),
        TokenKind::Mark(b'!') => Some(WishTree::Requiring),
        TokenKind::Mark(b'~') => Some(WishTree::Prohibiting),
        _ => None,
    }
}

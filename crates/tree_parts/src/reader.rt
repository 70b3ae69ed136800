// Readers that take one token.
ghost use Rattle.std.specs.Prelude.{◌≡◌, true, IfOk, Ok};
ghost use Rattle.soar_sym.specs.Words.{Texts};
ghost use Rattle.defs_read.specs.Readers.{flag, optional, taken, token};
ghost use Rattle.defs_read.specs.ReadingActions.{as_comparing, as_mark_wish, as_name, as_variable, is_comparing};
ghost use Rattle.defs_read.specs.ReadingTokens.{as_constant, as_relation, as_single, is_arrow, is_close_set, is_mark, is_open_set, is_relation, is_sign};
ghost use Rattle.defs_read.specs.Sayings.{sayings, word_text, AreTokensKnown};
ghost use Rattle.defs_read.specs.Sayings.{is_word_known};
ghost use Rattle.tree_parts.specs.Known.{is_constant_known, is_single_known, is_wish_known};
ghost use Rattle.tree_parts.specs.Reading.{IsLater, IsRest, Reads, Takes};
ghost use Rattle.tree_parts.specs.Seen.{constant_seen, single_seen, wish_seen};

use crate::action::WishTree;
use crate::field::{Constant, Single};
use crate::front::{is_mark, is_sign};
use crate::meaning;
use crate::stop::Stop;
use defs_text::{Token, TokenKind};
use soar_sym::{Sym, SymTable};
use std::alloc::Global;
use std::marker::Model;

mod field;
mod flag;
mod item;
mod term;
mod word;

/// What gives the trees their memory, and the table that has the words of the tokens. Contracts see the texts of that table.
#[derive(Drop)]
pub struct Reader<'t> {
    pub alloc: Global,
    pub table: &'t SymTable,
}

impl<'t> Model for Reader<'t> {
    ghost use Rattle.soar_sym.specs.Words.{Texts};

    ghost Value = { Texts };

    ghost view = { λ r. r.table.now };
}

impl Reader<'_> {
    /// Takes this mark.
    pub fn mark<'a>(&self, tokens: &'a [Token], mark: u8) -> Result<&'a [Token], Stop>
        requires { AreTokensKnown self.now tokens.now }
        ensures gives { Takes (is_mark mark) self.now tokens.now result }
        ensures rest { IfOk result (λ rest. IsLater self.now tokens.now rest.now) }
    {
        match tokens.split_first() {
            Some((token, rest)) if is_mark(&token.kind, mark) => Ok(rest),
            _ => Err(Stop::Unexpected(tokens.len())),
        }
    }

    /// Takes `<<`.
    pub fn open_set<'a>(&self, tokens: &'a [Token]) -> Result<&'a [Token], Stop>
        requires { AreTokensKnown self.now tokens.now }
        ensures gives { Takes is_open_set self.now tokens.now result }
        ensures rest { IfOk result (λ rest. IsLater self.now tokens.now rest.now) }
    {
        match tokens.split_first() {
            Some((token, rest)) if matches!(token.kind, TokenKind::OpenSet) => Ok(rest),
            _ => Err(Stop::Unexpected(tokens.len())),
        }
    }

    /// Takes `>>`.
    pub fn close_set<'a>(&self, tokens: &'a [Token]) -> Result<&'a [Token], Stop>
        requires { AreTokensKnown self.now tokens.now }
        ensures gives { Takes is_close_set self.now tokens.now result }
        ensures rest { IfOk result (λ rest. IsLater self.now tokens.now rest.now) }
    {
        match tokens.split_first() {
            Some((token, rest)) if matches!(token.kind, TokenKind::CloseSet) => Ok(rest),
            _ => Err(Stop::Unexpected(tokens.len())),
        }
    }

    /// Takes `-->`.
    pub fn arrow<'a>(&self, tokens: &'a [Token]) -> Result<&'a [Token], Stop>
        requires { AreTokensKnown self.now tokens.now }
        ensures gives { Takes is_arrow self.now tokens.now result }
        ensures rest { IfOk result (λ rest. IsLater self.now tokens.now rest.now) }
    {
        match tokens.split_first() {
            Some((token, rest)) if matches!(token.kind, TokenKind::Arrow) => Ok(rest),
            _ => Err(Stop::Unexpected(tokens.len())),
        }
    }

    /// Takes this sign, by its place, where it stands.
    pub fn sign_flag<'a>(&self, tokens: &'a [Token], place: u8) -> (bool, &'a [Token])
        requires { AreTokensKnown self.now tokens.now }
        ensures gives { flag (is_sign place) (sayings self.now tokens.now) ≡ Ok (result.0, sayings self.now result.1.now) }
        ensures rest { IsRest self.now tokens.now result.1.now }
    {
        match tokens.split_first() {
            Some((token, rest)) if is_sign(&token.kind, place) => (true, rest),
            _ => (false, tokens),
        }
    }

    /// The sign of a relation, by its place, where one stands.
    pub fn relation<'a>(&self, tokens: &'a [Token]) -> (Option<u8>, &'a [Token])
        requires { AreTokensKnown self.now tokens.now }
        ensures gives { optional is_relation (taken as_relation) (sayings self.now tokens.now) ≡ Ok (result.0, sayings self.now result.1.now) }
        ensures rest { IsRest self.now tokens.now result.1.now }
    {
        match tokens.split_first() {
            Some((token, rest)) => match meaning::relation(&token.kind) {
                Some(place) => (Some(place), rest),
                None => (None, tokens),
            },
            None => (None, tokens),
        }
    }

    /// A word or an integer.
    pub fn constant<'a>(&self, tokens: &'a [Token]) -> Result<(Constant, &'a [Token]), Stop>
        requires { AreTokensKnown self.now tokens.now }
        ensures gives { Reads constant_seen (taken as_constant) self.now tokens.now result }
        ensures known { IfOk result (λ x. is_constant_known self.now x.0 ≡ true) }
        ensures rest { IfOk result (λ x. IsLater self.now tokens.now x.1.now) }
    {
        match tokens.split_first() {
            Some((token, rest)) => match meaning::constant(&token.kind) {
                Some(constant) => Ok((constant, rest)),
                None => Err(Stop::Unexpected(tokens.len())),
            },
            None => Err(Stop::Unexpected(0)),
        }
    }

    /// A variable or a constant.
    pub fn single<'a>(&self, tokens: &'a [Token]) -> Result<(Single, &'a [Token]), Stop>
        requires { AreTokensKnown self.now tokens.now }
        ensures gives { Reads single_seen (taken as_single) self.now tokens.now result }
        ensures known { IfOk result (λ x. is_single_known self.now x.0 ≡ true) }
        ensures rest { IfOk result (λ x. IsLater self.now tokens.now x.1.now) }
    {
        match tokens.split_first() {
            Some((token, rest)) => match meaning::single(&token.kind) {
                Some(single) => Ok((single, rest)),
                None => Err(Stop::Unexpected(tokens.len())),
            },
            None => Err(Stop::Unexpected(0)),
        }
    }

    /// The word of a variable's name.
    pub fn variable<'a>(&self, tokens: &'a [Token]) -> Result<(Sym, &'a [Token]), Stop>
        requires { AreTokensKnown self.now tokens.now }
        ensures gives { Reads word_text (taken as_variable) self.now tokens.now result }
        ensures known { IfOk result (λ x. is_word_known self.now x.0 ≡ true) }
        ensures rest { IfOk result (λ x. IsLater self.now tokens.now x.1.now) }
    {
        match tokens.split_first() {
            Some((token, rest)) => match meaning::variable(&token.kind) {
                Some(name) => Ok((name, rest)),
                None => Err(Stop::Unexpected(tokens.len())),
            },
            None => Err(Stop::Unexpected(0)),
        }
    }

    /// A word, and whether it stands bare.
    pub fn name<'a>(&self, tokens: &'a [Token]) -> Result<((Sym, bool), &'a [Token]), Stop>
        requires { AreTokensKnown self.now tokens.now }
        ensures gives { Reads (λ words name. (word_text words name.0, name.1)) (taken as_name) self.now tokens.now result }
        ensures known { IfOk result (λ x. is_word_known self.now x.0.0 ≡ true) }
        ensures rest { IfOk result (λ x. IsLater self.now tokens.now x.1.now) }
    {
        match tokens.split_first() {
            Some((token, rest)) => match meaning::name(&token.kind) {
                Some(name) => Ok((name, rest)),
                None => Err(Stop::Unexpected(tokens.len())),
            },
            None => Err(Stop::Unexpected(0)),
        }
    }

    /// The sign of a preference that compares, by its place.
    pub fn comparing<'a>(&self, tokens: &'a [Token]) -> Result<(u8, &'a [Token]), Stop>
        requires { AreTokensKnown self.now tokens.now }
        ensures gives { Reads (λ words place. place) (taken as_comparing) self.now tokens.now result }
        ensures rest { IfOk result (λ x. IsLater self.now tokens.now x.1.now) }
    {
        match tokens.split_first() {
            Some((token, rest)) => match meaning::comparing(&token.kind) {
                Some(place) => Ok((place, rest)),
                None => Err(Stop::Unexpected(tokens.len())),
            },
            None => Err(Stop::Unexpected(0)),
        }
    }

    /// A preference that is one token.
    pub fn mark_wish<'a>(&self, tokens: &'a [Token]) -> Result<(WishTree, &'a [Token]), Stop>
        requires { AreTokensKnown self.now tokens.now }
        ensures gives { Reads wish_seen (taken as_mark_wish) self.now tokens.now result }
        ensures known { IfOk result (λ x. is_wish_known self.now x.0 ≡ true) }
        ensures rest { IfOk result (λ x. IsLater self.now tokens.now x.1.now) }
    {
        match tokens.split_first() {
            Some((token, rest)) => match meaning::mark_wish(&token.kind) {
                Some(wish) => Ok((wish, rest)),
                None => Err(Stop::Unexpected(tokens.len())),
            },
            None => Err(Stop::Unexpected(0)),
        }
    }
}

// Words that the grammar knows by their texts.
ghost use Rattle.std.specs.Prelude.{◌≡◌, option_map, IfOk, Ok};
ghost use Rattle.defs_read.specs.Readers.{begins, flag, taken, token};
ghost use Rattle.defs_read.specs.Reading.{as_flag};
ghost use Rattle.defs_read.specs.ReadingTokens.{is_bare};
ghost use Rattle.defs_read.specs.ReadingValues.{as_function, function_in, functions};
ghost use Rattle.defs_read.specs.Sayings.{saying_of, sayings, AreTokensKnown, IsKindKnown};
ghost use Rattle.tree_parts.specs.Reading.{IsLater, IsRest, Reads, Takes};
ghost use Rattle.tree_parts.specs.Seen.{flag_seen};

use crate::front::{MINUS, PLUS};
use crate::production::Flag;
use crate::reader::Reader;
use crate::stop::Stop;
use defs_text::{Token, TokenKind};
use soar_rule::Func;
use soar_sym::Sym;

/// The function that a bare word names.
fn function_named(text: &str) -> Option<Func>
    ensures { result ≡ function_in functions text.now }
{
    match text {
        "*" => Some(Func::Times),
        "div" => Some(Func::Div),
        "mod" => Some(Func::Mod),
        "abs" => Some(Func::Abs),
        "min" => Some(Func::Min),
        "max" => Some(Func::Max),
        "concat" => Some(Func::Concat),
        "ifeq" => Some(Func::IfEq),
        "strlen" => Some(Func::StrLen),
        "crlf" => Some(Func::Crlf),
        _ => None,
    }
}

impl Reader<'_> {
    /// Whether a token is the bare word of this text.
    fn is_bare(&self, kind: &TokenKind, text: &str) -> bool
        requires { IsKindKnown self.now kind.now }
        ensures { result ≡ is_bare text.now (saying_of self.now kind.now) }
    {
        match kind {
            TokenKind::Word(Sym::Word(word), true) => self.table.text(*word) == text,
            _ => false,
        }
    }

    /// Whether the bare word of this text stands in front.
    pub fn begins_bare(&self, tokens: &[Token], text: &str) -> bool
        requires { AreTokensKnown self.now tokens.now }
        ensures { result ≡ begins (is_bare text.now) (sayings self.now tokens.now) }
    {
        match tokens.first() {
            Some(token) => self.is_bare(&token.kind, text),
            None => false,
        }
    }

    /// Takes the bare word of this text.
    pub fn bare<'a>(&self, tokens: &'a [Token], text: &str) -> Result<&'a [Token], Stop>
        requires { AreTokensKnown self.now tokens.now }
        ensures gives { Takes (is_bare text.now) self.now tokens.now result }
        ensures rest { IfOk result (λ rest. IsLater self.now tokens.now rest.now) }
    {
        match tokens.split_first() {
            Some((token, rest)) if self.is_bare(&token.kind, text) => Ok(rest),
            _ => Err(Stop::Unexpected(tokens.len())),
        }
    }

    /// Takes the bare word of this text, where it stands.
    pub fn bare_flag<'a>(&self, tokens: &'a [Token], text: &str) -> (bool, &'a [Token])
        requires { AreTokensKnown self.now tokens.now }
        ensures gives { flag (is_bare text.now) (sayings self.now tokens.now) ≡ Ok (result.0, sayings self.now result.1.now) }
        ensures rest { IsRest self.now tokens.now result.1.now }
    {
        match tokens.split_first() {
            Some((token, rest)) if self.is_bare(&token.kind, text) => (true, rest),
            _ => (false, tokens),
        }
    }

    /// The function that a token names.
    fn as_function(&self, kind: &TokenKind) -> Option<Func>
        requires { IsKindKnown self.now kind.now }
        ensures { result ≡ as_function (saying_of self.now kind.now) }
    {
        match kind {
            TokenKind::Sign(PLUS) => Some(Func::Plus),
            TokenKind::Sign(MINUS) => Some(Func::Minus),
            TokenKind::Word(Sym::Word(word), true) => function_named(self.table.text(*word)),
            _ => None,
        }
    }

    /// A function, by its name.
    pub fn function<'a>(&self, tokens: &'a [Token]) -> Result<(Func, &'a [Token]), Stop>
        requires { AreTokensKnown self.now tokens.now }
        ensures gives { Reads (λ words function. function) (taken as_function) self.now tokens.now result }
        ensures rest { IfOk result (λ x. IsLater self.now tokens.now x.1.now) }
    {
        match tokens.split_first() {
            Some((token, rest)) => match self.as_function(&token.kind) {
                Some(function) => Ok((function, rest)),
                None => Err(Stop::Unexpected(tokens.len())),
            },
            None => Err(Stop::Unexpected(0)),
        }
    }

    /// The flag that a token is.
    pub fn as_flag(&self, kind: &TokenKind) -> Option<Flag>
        requires { IsKindKnown self.now kind.now }
        ensures { option_map flag_seen result ≡ as_flag (saying_of self.now kind.now) }
    {
        if self.is_bare(kind, ":o-support") {
            Some(Flag::OperatorSupport)
        } else if self.is_bare(kind, ":i-support") {
            Some(Flag::InstanceSupport)
        } else if self.is_bare(kind, ":default") {
            Some(Flag::Default)
        } else if self.is_bare(kind, ":chunk") {
            Some(Flag::Chunk)
        } else {
            None
        }
    }

    /// A flag.
    pub fn flag<'a>(&self, tokens: &'a [Token]) -> Result<(Flag, &'a [Token]), Stop>
        requires { AreTokensKnown self.now tokens.now }
        ensures gives { Reads (λ words flag. flag_seen flag) (taken as_flag) self.now tokens.now result }
        ensures rest { IfOk result (λ x. IsLater self.now tokens.now x.1.now) }
    {
        match tokens.split_first() {
            Some((token, rest)) => match self.as_flag(&token.kind) {
                Some(flag) => Ok((flag, rest)),
                None => Err(Stop::Unexpected(tokens.len())),
            },
            None => Err(Stop::Unexpected(0)),
        }
    }
}

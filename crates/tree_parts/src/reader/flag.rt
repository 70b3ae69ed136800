// Reads what stands in front of the conditions: documentation and flags.
ghost use Rattle.std.specs.Prelude.{◌≡◌, map, IfOk};
ghost use Rattle.defs_read.specs.Readers.{begins, optional, taken};
ghost use Rattle.defs_read.specs.Reading.{flags_at, is_open_for, may_follow, with_flag};
ghost use Rattle.defs_read.specs.ReadingActions.{as_documentation, is_documentation};
ghost use Rattle.defs_read.specs.Sayings.{sayings, AreTokensKnown};
ghost use Rattle.tree_parts.specs.Reading.{seen_flags, IsRest, Reads};
ghost use Rattle.tree_parts.specs.Seen.{flag_seen};

use crate::production::Flag;
use crate::reader::Reader;
use crate::stop::Stop;
use defs_text::{Token, TokenKind};
use soar_sym::{List, Text};

/// Whether a flag of each pair has been read.
#[derive(Clone, Copy)]
pub struct SeenFlags {
    /// `:o-support` or `:i-support`
    pub support: bool,
    /// `:default` or `:chunk`
    pub kind: bool,
}

impl SeenFlags {
    /// Whether a flag may still stand.
    fn allows(self, flag: Flag) -> bool
        ensures { result ≡ is_open_for (seen_flags self) (flag_seen flag) }
    {
        match flag {
            Flag::OperatorSupport | Flag::InstanceSupport => !self.support,
            Flag::Default | Flag::Chunk => !self.kind,
        }
    }

    /// What has been read, once this flag was.
    fn with(self, flag: Flag) -> SeenFlags
        ensures { seen_flags result ≡ with_flag (seen_flags self) (flag_seen flag) }
    {
        match flag {
            Flag::OperatorSupport | Flag::InstanceSupport => SeenFlags {
                support: true,
                kind: self.kind,
            },
            Flag::Default | Flag::Chunk => SeenFlags {
                support: self.support,
                kind: true,
            },
        }
    }
}

impl Reader<'_> {
    /// A text in quotes, where one stands.
    pub fn documentation<'a>(
        &self,
        tokens: &'a [Token],
    ) -> Result<(Option<Text>, &'a [Token]), Stop>
        requires { AreTokensKnown self.now tokens.now }
        ensures gives { Reads (λ words doc. doc) (optional is_documentation (taken as_documentation)) self.now tokens.now result }
        ensures rest { IfOk result (λ x. IsRest self.now tokens.now x.1.now) }
    {
        match tokens.split_first() {
            Some((token, rest)) => match &token.kind {
                TokenKind::Doc(text) => {
                    Ok((Some(Text::from_str(self.alloc, text.as_str())?), rest))
                }
                _ => Ok((None, tokens)),
            },
            None => Ok((None, tokens)),
        }
    }

    /// Flags, each at most once and one of each pair.
    pub fn flags<'a>(&self, tokens: &'a [Token]) -> Result<(List<Flag>, &'a [Token]), Stop>
        requires { AreTokensKnown self.now tokens.now }
        ensures gives { Reads (λ words. map flag_seen) flags_at self.now tokens.now result }
        ensures rest { IfOk result (λ x. IsRest self.now tokens.now x.1.now) }
    {
        let mut flags = List::new(self.alloc);
        let mut seen = SeenFlags {
            support: false,
            kind: false,
        };
        let mut rest = tokens;
        'flags: while self.flag_follows(seen, rest) {
            match self.flag(rest) {
                Ok((flag, after)) => {
                    flags.push(flag)?;
                    seen = seen.with(flag);
                    rest = after;
                }
                Err(stop) => return Err(stop),
            }
        }
        Ok((flags, rest))
    }

    /// Whether a flag stands in front that may still stand.
    fn flag_follows(&self, seen: SeenFlags, tokens: &[Token]) -> bool
        requires { AreTokensKnown self.now tokens.now }
        ensures { result ≡ begins (may_follow (seen_flags seen)) (sayings self.now tokens.now) }
    {
        match tokens.first() {
            Some(token) => match self.as_flag(&token.kind) {
                Some(flag) => seen.allows(flag),
                None => false,
            },
            None => false,
        }
    }
}

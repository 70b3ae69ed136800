// Reads values of actions.
ghost use Rattle.std.specs.Prelude.{◌≡◌, map, true, IfOk};
ghost use Rattle.std.specs.List.{list_all};
ghost use Rattle.soar_sym.specs.Words.{Texts};
ghost use Rattle.defs_read.specs.Readers.{many, several};
ghost use Rattle.defs_read.specs.ReadingValues.{allows, arity_of, begins_term, call_at, one_further, term_at, wants};
ghost use Rattle.defs_read.specs.Sayings.{sayings, AreTokensKnown};
ghost use Rattle.tree_parts.specs.Known.{is_term_known};
ghost use Rattle.tree_parts.specs.Reading.{IsLater, IsRest, Reads};
ghost use Rattle.tree_parts.specs.Seen.{term_seen};

use crate::action::Term;
use crate::front::{begins_mark, begins_term};
use crate::reader::Reader;
use crate::stop::Stop;
use defs_text::Token;
use soar_rule::Func;
use soar_sym::List;

impl Reader<'_> {
    /// A value, where so many more brackets may be open.
    #[cycle(terms)]
    #[tactic(auto, unfolding(defs_read::specs::ReadingValues::term_at))]
    pub fn term<'a>(&self, depth: usize, tokens: &'a [Token]) -> Result<(Term, &'a [Token]), Stop>
        requires { AreTokensKnown self.now tokens.now }
        ensures gives { Reads term_seen (term_at depth) self.now tokens.now result }
        ensures known { IfOk result (λ x. is_term_known self.now x.0 ≡ true) }
        ensures rest { IfOk result (λ x. IsLater self.now tokens.now x.1.now) }
    {
        if !begins_mark(tokens, b'(') {
            let (single, rest) = self.single(tokens)?;
            return Ok((Term::Single(single), rest));
        }
        if depth == 0 {
            return Err(Stop::Deep(tokens.len()));
        }
        self.call(depth - 1, tokens)
    }

    /// A function and its values, in parentheses.
    #[cycle(terms)]
    fn call<'a>(&self, depth: usize, tokens: &'a [Token]) -> Result<(Term, &'a [Token]), Stop>
        requires { AreTokensKnown self.now tokens.now }
        ensures gives { Reads term_seen (call_at (term_at depth)) self.now tokens.now result }
        ensures known { IfOk result (λ x. is_term_known self.now x.0 ≡ true) }
        ensures rest { IfOk result (λ x. IsLater self.now tokens.now x.1.now) }
    {
        let rest = self.mark(tokens, b'(')?;
        let (function, rest) = self.function(rest)?;
        let (values, rest) = self.arguments(depth, function, rest)?;
        let rest = self.mark(rest, b')')?;
        Ok((Term::Call(function, values), rest))
    }

    /// The values of a function, as many as it has.
    #[cycle(terms)]
    fn arguments<'a>(
        &self,
        depth: usize,
        function: Func,
        tokens: &'a [Token],
    ) -> Result<(List<Term>, &'a [Token]), Stop>
        requires { AreTokensKnown self.now tokens.now }
        ensures gives { Reads (λ words. map (term_seen words)) (several (wants function) one_further (term_at depth) 0) self.now tokens.now result }
        ensures known { IfOk result (λ x. list_all (is_term_known self.now) x.0 ≡ true) }
        ensures rest { IfOk result (λ x. IsRest self.now tokens.now x.1.now) }
    {
        let mut values = List::new(self.alloc);
        let mut rest = tokens;
        'values: while wants(function, values.len(), rest) {
            match self.term(depth, rest) {
                Ok((value, after)) => {
                    values.push(value)?;
                    rest = after;
                }
                Err(stop) => return Err(stop),
            }
        }
        Ok((values, rest))
    }

    /// Values, as many as there are.
    pub fn terms<'a>(
        &self,
        depth: usize,
        tokens: &'a [Token],
    ) -> Result<(List<Term>, &'a [Token]), Stop>
        requires { AreTokensKnown self.now tokens.now }
        ensures gives { Reads (λ words. map (term_seen words)) (many begins_term (term_at depth)) self.now tokens.now result }
        ensures known { IfOk result (λ x. list_all (is_term_known self.now) x.0 ≡ true) }
        ensures rest { IfOk result (λ x. IsRest self.now tokens.now x.1.now) }
    {
        let mut values = List::new(self.alloc);
        let mut rest = tokens;
        'values: while begins_term(rest) {
            match self.term(depth, rest) {
                Ok((value, after)) => {
                    values.push(value)?;
                    rest = after;
                }
                Err(stop) => return Err(stop),
            }
        }
        Ok((values, rest))
    }
}

/// Whether a value must or may follow those that a function has already.
fn wants(function: Func, count: usize, tokens: &[Token]) -> bool
    ensures { (words : Texts) → result ≡ wants function count (sayings words tokens.now) }
{
    count < least(function) || (allows(function, count) && begins_term(tokens))
}

/// How many values a function has at least.
fn least(function: Func) -> usize
    ensures { result ≡ (arity_of function).least }
{
    match function {
        Func::Concat | Func::Crlf => 0,
        Func::Plus | Func::Times | Func::Minus | Func::Min | Func::Max => 1,
        Func::Abs | Func::StrLen => 1,
        Func::Div | Func::Mod => 2,
        Func::IfEq => 4,
    }
}

/// Whether a function may have more than so many values.
fn allows(function: Func, count: usize) -> bool
    ensures { result ≡ allows (arity_of function).most count }
{
    match function {
        Func::Plus | Func::Times | Func::Minus | Func::Min | Func::Max | Func::Concat => true,
        Func::Crlf => false,
        Func::Abs | Func::StrLen => count < 1,
        Func::Div | Func::Mod => count < 2,
        Func::IfEq => count < 4,
    }
}

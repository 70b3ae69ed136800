// Reads values with their preferences.
ghost use Rattle.std.specs.Prelude.{◌≡◌, map, true, IfOk, option_map};
ghost use Rattle.std.specs.List.{list_all};
ghost use Rattle.defs_read.specs.Readers.{many, optional};
ghost use Rattle.defs_read.specs.ReadingActions.{begins_wish, compared_at, item_at, wish_at};
ghost use Rattle.defs_read.specs.ReadingValues.{begins_term, term_at};
ghost use Rattle.defs_read.specs.Sayings.{AreTokensKnown};
ghost use Rattle.tree_parts.specs.Known.{is_item_known, is_option_known, is_term_known, is_wish_known};
ghost use Rattle.tree_parts.specs.Reading.{IsLater, IsRest, Reads};
ghost use Rattle.tree_parts.specs.Seen.{compared_seen, item_seen, term_seen, wish_seen};

use crate::action::{Compared, ItemTree, Term, WishTree};
use crate::front::{begins_comparing, begins_term, begins_wish};
use crate::reader::Reader;
use crate::stop::Stop;
use defs_text::Token;
use soar_sym::List;

impl Reader<'_> {
    /// Values with their preferences, as many as there are.
    pub fn items<'a>(
        &self,
        depth: usize,
        tokens: &'a [Token],
    ) -> Result<(List<ItemTree>, &'a [Token]), Stop>
        requires { AreTokensKnown self.now tokens.now }
        ensures gives { Reads (λ words. map (item_seen words)) (many begins_term (item_at depth)) self.now tokens.now result }
        ensures known { IfOk result (λ x. list_all (is_item_known self.now) x.0 ≡ true) }
        ensures rest { IfOk result (λ x. IsRest self.now tokens.now x.1.now) }
    {
        let mut items = List::new(self.alloc);
        let mut rest = tokens;
        'items: while begins_term(rest) {
            match self.item(depth, rest) {
                Ok((item, after)) => {
                    items.push(item)?;
                    rest = after;
                }
                Err(stop) => return Err(stop),
            }
        }
        Ok((items, rest))
    }

    /// A value with its preferences.
    pub fn item<'a>(
        &self,
        depth: usize,
        tokens: &'a [Token],
    ) -> Result<(ItemTree, &'a [Token]), Stop>
        requires { AreTokensKnown self.now tokens.now }
        ensures gives { Reads item_seen (item_at depth) self.now tokens.now result }
        ensures known { IfOk result (λ x. is_item_known self.now x.0 ≡ true) }
        ensures rest { IfOk result (λ x. IsLater self.now tokens.now x.1.now) }
    {
        let (value, rest) = self.term(depth, tokens)?;
        let (wishes, rest) = self.wishes(depth, rest)?;
        Ok((ItemTree { value, wishes }, rest))
    }

    /// Preferences, as many as there are.
    fn wishes<'a>(
        &self,
        depth: usize,
        tokens: &'a [Token],
    ) -> Result<(List<WishTree>, &'a [Token]), Stop>
        requires { AreTokensKnown self.now tokens.now }
        ensures gives { Reads (λ words. map (wish_seen words)) (many begins_wish (wish_at depth)) self.now tokens.now result }
        ensures known { IfOk result (λ x. list_all (is_wish_known self.now) x.0 ≡ true) }
        ensures rest { IfOk result (λ x. IsRest self.now tokens.now x.1.now) }
    {
        let mut wishes = List::new(self.alloc);
        let mut rest = tokens;
        'wishes: while begins_wish(rest) {
            match self.wish(depth, rest) {
                Ok((wish, after)) => {
                    wishes.push(wish)?;
                    rest = after;
                }
                Err(stop) => return Err(stop),
            }
        }
        Ok((wishes, rest))
    }

    /// A preference.
    fn wish<'a>(&self, depth: usize, tokens: &'a [Token]) -> Result<(WishTree, &'a [Token]), Stop>
        requires { AreTokensKnown self.now tokens.now }
        ensures gives { Reads wish_seen (wish_at depth) self.now tokens.now result }
        ensures known { IfOk result (λ x. is_wish_known self.now x.0 ≡ true) }
        ensures rest { IfOk result (λ x. IsLater self.now tokens.now x.1.now) }
    {
        if !begins_comparing(tokens) {
            return self.mark_wish(tokens);
        }
        let (compared, rest) = self.compared(depth, tokens)?;
        Ok((WishTree::Comparing(compared), rest))
    }

    /// `>`, `<` or `=`, and the referent where a value follows.
    fn compared<'a>(
        &self,
        depth: usize,
        tokens: &'a [Token],
    ) -> Result<(Compared, &'a [Token]), Stop>
        requires { AreTokensKnown self.now tokens.now }
        ensures gives { Reads compared_seen (compared_at depth) self.now tokens.now result }
        ensures known { IfOk result (λ x. is_option_known (is_term_known self.now) x.0.referent ≡ true) }
        ensures rest { IfOk result (λ x. IsLater self.now tokens.now x.1.now) }
    {
        let (sign, rest) = self.comparing(tokens)?;
        let (referent, rest) = self.referent(depth, rest)?;
        Ok((Compared { sign, referent }, rest))
    }

    /// A value, where one begins.
    fn referent<'a>(
        &self,
        depth: usize,
        tokens: &'a [Token],
    ) -> Result<(Option<Term>, &'a [Token]), Stop>
        requires { AreTokensKnown self.now tokens.now }
        ensures gives { Reads (λ words. option_map (term_seen words)) (optional begins_term (term_at depth)) self.now tokens.now result }
        ensures known { IfOk result (λ x. is_option_known (is_term_known self.now) x.0 ≡ true) }
        ensures rest { IfOk result (λ x. IsRest self.now tokens.now x.1.now) }
    {
        if !begins_term(tokens) {
            return Ok((None, tokens));
        }
        let (term, rest) = self.term(depth, tokens)?;
        Ok((Some(term), rest))
    }
}

// Reads fields of conditions.
ghost use Rattle.std.specs.Prelude.{◌≡◌, map, true, IfOk};
ghost use Rattle.std.specs.List.{list_all};
ghost use Rattle.defs_read.specs.Readers.{many, taken};
ghost use Rattle.defs_read.specs.ReadingFields.{alternatives_at, begins_simple, braced_at, field_at, simple_at, tested_at};
ghost use Rattle.defs_read.specs.ReadingTokens.{as_constant, is_constant};
ghost use Rattle.defs_read.specs.Sayings.{AreTokensKnown};
ghost use Rattle.tree_parts.specs.Known.{is_constant_known, is_field_known, is_simple_known, is_single_known};
ghost use Rattle.tree_parts.specs.Reading.{IsLater, IsRest, Reads};
ghost use Rattle.tree_parts.specs.Seen.{alternatives_seen, braced_seen, constant_seen, field_seen, simple_seen, tested_seen};

use crate::field::{Alternatives, Braced, Constant, FieldTree, Simple, Tested};
use crate::front::{begins_alternatives, begins_constant, begins_mark, begins_simple};
use crate::reader::Reader;
use crate::stop::Stop;
use defs_text::Token;
use soar_sym::List;

impl Reader<'_> {
    /// What stands in the place of an identifier, an attribute or a value, where so many more brackets may be open.
    pub fn field<'a>(
        &self,
        depth: usize,
        tokens: &'a [Token],
    ) -> Result<(FieldTree, &'a [Token]), Stop>
        requires { AreTokensKnown self.now tokens.now }
        ensures gives { Reads field_seen (field_at depth) self.now tokens.now result }
        ensures known { IfOk result (λ x. is_field_known self.now x.0 ≡ true) }
        ensures rest { IfOk result (λ x. IsLater self.now tokens.now x.1.now) }
    {
        if !begins_mark(tokens, b'{') {
            let (simple, rest) = self.simple(tokens)?;
            return Ok((FieldTree::Single(simple), rest));
        }
        if depth == 0 {
            return Err(Stop::Deep(tokens.len()));
        }
        let (braced, rest) = self.braced(tokens)?;
        Ok((FieldTree::Braced(braced), rest))
    }

    /// Tests between braces, one or more.
    fn braced<'a>(&self, tokens: &'a [Token]) -> Result<(Braced, &'a [Token]), Stop>
        requires { AreTokensKnown self.now tokens.now }
        ensures gives { Reads braced_seen braced_at self.now tokens.now result }
        ensures first { IfOk result (λ x. is_simple_known self.now x.0.first ≡ true) }
        ensures others { IfOk result (λ x. list_all (is_simple_known self.now) x.0.others ≡ true) }
        ensures rest { IfOk result (λ x. IsLater self.now tokens.now x.1.now) }
    {
        let rest = self.mark(tokens, b'{')?;
        let (first, rest) = self.simple(rest)?;
        let (others, rest) = self.simples(rest)?;
        let rest = self.mark(rest, b'}')?;
        Ok((Braced { first, others }, rest))
    }

    /// Tests, as many as there are.
    fn simples<'a>(&self, tokens: &'a [Token]) -> Result<(List<Simple>, &'a [Token]), Stop>
        requires { AreTokensKnown self.now tokens.now }
        ensures gives { Reads (λ words. map (simple_seen words)) (many begins_simple simple_at) self.now tokens.now result }
        ensures known { IfOk result (λ x. list_all (is_simple_known self.now) x.0 ≡ true) }
        ensures rest { IfOk result (λ x. IsRest self.now tokens.now x.1.now) }
    {
        let mut simples = List::new(self.alloc);
        let mut rest = tokens;
        'simples: while begins_simple(rest) {
            match self.simple(rest) {
                Ok((simple, after)) => {
                    simples.push(simple)?;
                    rest = after;
                }
                Err(stop) => return Err(stop),
            }
        }
        Ok((simples, rest))
    }

    /// One test of a field.
    fn simple<'a>(&self, tokens: &'a [Token]) -> Result<(Simple, &'a [Token]), Stop>
        requires { AreTokensKnown self.now tokens.now }
        ensures gives { Reads simple_seen simple_at self.now tokens.now result }
        ensures known { IfOk result (λ x. is_simple_known self.now x.0 ≡ true) }
        ensures rest { IfOk result (λ x. IsLater self.now tokens.now x.1.now) }
    {
        if begins_alternatives(tokens) {
            let (alternatives, rest) = self.alternatives(tokens)?;
            return Ok((Simple::OneOf(alternatives), rest));
        }
        let (tested, rest) = self.tested(tokens)?;
        Ok((Simple::Tested(tested), rest))
    }

    /// A variable or a constant behind the sign of a relation, or behind none.
    fn tested<'a>(&self, tokens: &'a [Token]) -> Result<(Tested, &'a [Token]), Stop>
        requires { AreTokensKnown self.now tokens.now }
        ensures gives { Reads tested_seen tested_at self.now tokens.now result }
        ensures known { IfOk result (λ x. is_single_known self.now x.0.single ≡ true) }
        ensures rest { IfOk result (λ x. IsLater self.now tokens.now x.1.now) }
    {
        let (relation, rest) = self.relation(tokens);
        let (single, rest) = self.single(rest)?;
        Ok((Tested { relation, single }, rest))
    }

    /// Constants between `<<` and `>>`, one or more.
    fn alternatives<'a>(&self, tokens: &'a [Token]) -> Result<(Alternatives, &'a [Token]), Stop>
        requires { AreTokensKnown self.now tokens.now }
        ensures gives { Reads alternatives_seen alternatives_at self.now tokens.now result }
        ensures first { IfOk result (λ x. is_constant_known self.now x.0.first ≡ true) }
        ensures others { IfOk result (λ x. list_all (is_constant_known self.now) x.0.others ≡ true) }
        ensures rest { IfOk result (λ x. IsLater self.now tokens.now x.1.now) }
    {
        let rest = self.open_set(tokens)?;
        let (first, rest) = self.constant(rest)?;
        let (others, rest) = self.constants(rest)?;
        let rest = self.close_set(rest)?;
        Ok((Alternatives { first, others }, rest))
    }

    /// Constants, as many as there are.
    fn constants<'a>(&self, tokens: &'a [Token]) -> Result<(List<Constant>, &'a [Token]), Stop>
        requires { AreTokensKnown self.now tokens.now }
        ensures gives { Reads (λ words. map (constant_seen words)) (many is_constant (taken as_constant)) self.now tokens.now result }
        ensures known { IfOk result (λ x. list_all (is_constant_known self.now) x.0 ≡ true) }
        ensures rest { IfOk result (λ x. IsRest self.now tokens.now x.1.now) }
    {
        let mut constants = List::new(self.alloc);
        let mut rest = tokens;
        'constants: while begins_constant(rest) {
            match self.constant(rest) {
                Ok((constant, after)) => {
                    constants.push(constant)?;
                    rest = after;
                }
                Err(stop) => return Err(stop),
            }
        }
        Ok((constants, rest))
    }
}

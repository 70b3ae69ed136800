// The production of a text, for tests.
ghost use Rattle.std.specs.Prelude.{IfOk, IfSome, IsTrue};
ghost use Rattle.soar_rule.specs.Productions.{production_seen};
ghost use Rattle.soar_rule.specs.Symbols.{AreKnown, symbols_of};
ghost use Rattle.defs_read.specs.Sayings.{AreTokensKnown, IsKindKnown};

use defs_text::{Token, TokenKind};
use soar_lex::lex;
use soar_read::read_production;
use soar_rule::Production;
use soar_sym::{List, Sym, SymTable};
use std::alloc::{AllocError, Global};

/// The production that a text spells, where it spells one.
pub fn spelled(
    alloc: Global,
    table: &mut SymTable,
    text: &str,
) -> Result<Option<Production>, AllocError>
    ensures known { IfOk result (λ o. IfSome o (λ p. AreKnown table.new (symbols_of (production_seen p)))) }
{
    let bytes = List::from_slice(alloc, text.as_bytes())?;
    if bytes.len() > 2_097_152 {
        return Ok(None);
    }
    match lex(alloc, table, &bytes) {
        Ok(tokens) => Ok(read(alloc, table, &tokens)),
        Err(_) => Ok(None),
    }
}

fn read(alloc: Global, table: &mut SymTable, tokens: &List<Token>) -> Option<Production>
    ensures known { IfSome result (λ p. AreKnown table.new (symbols_of (production_seen p))) }
{
    if tokens.len() > 1_000 || !are_known(table, tokens.as_slice()) {
        return None;
    }
    match read_production(alloc, table, tokens) {
        Ok(production) => Some(production),
        Err(_) => None,
    }
}

fn are_known(table: &SymTable, tokens: &[Token]) -> bool
    ensures { IsTrue result → AreTokensKnown table.now tokens.now }
{
    'tokens: for token in tokens {
        if !is_kind_known(table, &token.kind) {
            return false;
        }
    }
    true
}

fn is_kind_known(table: &SymTable, kind: &TokenKind) -> bool
    ensures { IsTrue result → IsKindKnown table.now kind.now }
{
    match kind {
        TokenKind::Var(Sym::Word(word)) => *word < table.word_count(),
        TokenKind::Word(Sym::Word(word), _) => *word < table.word_count(),
        TokenKind::Var(_) => false,
        TokenKind::Word(_, _) => false,
        _ => true,
    }
}

ghost use Rattle.std.specs.Prelude.{◌≡◌, ◌≤◌, ◌^◌, length, IfOk};
ghost use Rattle.soar_rule.specs.Productions.{production_seen};
ghost use Rattle.soar_rule.specs.Symbols.{AreKnown, symbols_of};
ghost use Rattle.defs_read.specs.Sayings.{AreTokensKnown};
ghost use Rattle.soar_read.specs.Answers.{place_left, IsRead};
ghost use Rattle.soar_read.specs.declared.fault.ReadFault.TheVariants.{SyntaxFault};

use crate::fault::{ReadFault, SyntaxKind};
use crate::production::production;
use defs_text::Token;
use soar_rule::Production;
use soar_sym::{List, SymTable};
use soar_tree::{Stop, read_tree};
use std::alloc::Global;

/// Reads the production that the tokens spell (Soar manual, chapter 3, production syntax). The names of its new variables join the table.
/// The tokens of words and of variables must hold words of the table: neither identifiers nor integers.
pub fn read_production(
    alloc: Global,
    table: &mut SymTable,
    tokens: &List<Token>,
) -> Result<Production, ReadFault>
    requires few { length tokens.now ≤ 2 ^ 26 }
    requires words { AreTokensKnown table.old tokens.now }
    ensures reading { IsRead table.old table.new tokens.now result }
    ensures known { IfOk result (λ p. AreKnown table.new (symbols_of (production_seen p))) }
{
    let tokens = tokens.as_slice();
    match read_tree(alloc, table, tokens) {
        Ok(tree) => production(alloc, table, tokens, &tree),
        Err(Stop::Unexpected(left)) => Err(refused(tokens, left, SyntaxKind::Unexpected)),
        Err(Stop::Deep(left)) => Err(refused(tokens, left, SyntaxKind::Deep)),
        Err(Stop::NoMemory) => Err(ReadFault::NoMemory),
    }
}

fn refused(tokens: &[Token], left: usize, kind: SyntaxKind) -> ReadFault
    ensures { result ≡ SyntaxFault (place_left 0 tokens.now left) kind }
{
    ReadFault::SyntaxFault {
        place: place_left(tokens, left),
        kind,
    }
}

/// The first byte of the first of so many tokens that are left, or the end of the last token.
fn place_left(tokens: &[Token], left: usize) -> u32
    ensures { result ≡ place_left 0 tokens.now left }
{
    let mut behind = 0;
    let mut rest = tokens.len();
    'tokens: for token in tokens {
        if rest == left {
            return token.start;
        }
        behind = token.end;
        rest -= 1;
    }
    behind
}

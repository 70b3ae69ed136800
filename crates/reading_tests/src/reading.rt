// Tokens are built by hand here, so that no case rests on how texts are cut.
ghost use Rattle.std.specs.Prelude.{◌≡◌, ◌<◌, ◌≤◌, ◌^◌, length, true, IfOk};
ghost use Rattle.soar_sym.specs.Words.{Texts};
ghost use Rattle.soar_sym.specs.declared.symbol.Sym.TheVariants as symbols;
ghost use Rattle.defs_read.specs.Sayings.{AreTokensKnown};
ghost use Rattle.defs_text.specs.declared.token.TokenKind.TheVariants as kinds;

use defs_text::{Token, TokenKind};
use soar_read::{ReadFault, SyntaxKind, read_production};
use soar_sym::{InternFault, List, Sym, SymTable};
use soar_tree::{Stop, read_tree};
use std::alloc::{AllocError, Global};
use std::test::Fail;

fn mark(mark: u8) -> Token
    ensures { result.kind ≡ kinds.Mark mark }
{
    Token {
        kind: TokenKind::Mark(mark),
        start: 0,
        end: 0,
    }
}

fn arrow(start: u32, end: u32) -> Token
    ensures { result.kind ≡ kinds.Arrow }
{
    Token {
        kind: TokenKind::Arrow,
        start,
        end,
    }
}

fn bare(word: u32) -> Token
    ensures { result.kind ≡ kinds.Word (symbols.Word word) true }
{
    Token {
        kind: TokenKind::Word(Sym::Word(word), true),
        start: 0,
        end: 0,
    }
}

// ---- trees

#[test]
fn no_tokens_end_too_early(rt: HostRuntime) -> Result<(), Fail> {
    let table = SymTable::new(rt.alloc())?;
    assert!(rt; matches!(read_tree(rt.alloc(), &table, &[]), Err(Stop::Unexpected(0))));
    Ok(())
}

/// Whether of two braces both are left where reading stops.
fn stops_at_the_first(alloc: Global, table: &SymTable) -> bool {
    let tokens = [mark(b'{'), mark(b'}')];
    matches!(read_tree(alloc, table, &tokens), Err(Stop::Unexpected(2)))
}

#[test]
fn the_first_wrong_token_is_told(rt: HostRuntime) -> Result<(), Fail> {
    let table = SymTable::new(rt.alloc())?;
    assert!(rt; stops_at_the_first(rt.alloc(), &table));
    Ok(())
}

// ---- productions

#[test]
fn no_tokens_spell_no_production(rt: HostRuntime) -> Result<(), Fail> {
    let mut table = SymTable::new(rt.alloc())?;
    let tokens = List::new(rt.alloc());
    assert!(rt;
        matches!(
            read_production(rt.alloc(), &mut table, &tokens),
            Err(ReadFault::SyntaxFault {
                place: 0,
                kind: SyntaxKind::Unexpected
            })
        )
    );
    Ok(())
}

/// Whether an arrow from byte 7 on is refused there.
fn is_refused_at_seven(alloc: Global, table: &mut SymTable) -> Result<bool, AllocError> {
    let mut tokens = List::new(alloc);
    tokens.push(arrow(7, 10))?;
    Ok(matches!(
        read_production(alloc, table, &tokens),
        Err(ReadFault::SyntaxFault { place: 7, .. })
    ))
}

#[test]
fn the_first_wrong_token_has_its_place(rt: HostRuntime) -> Result<(), Fail> {
    let mut table = SymTable::new(rt.alloc())?;
    assert!(rt; is_refused_at_seven(rt.alloc(), &mut table)?);
    Ok(())
}

// ---- what is read

/// The word of a text.
fn word(table: &mut SymTable, text: &str) -> Result<u32, InternFault>
    ensures { IfOk result (λ word. word < length table.new) }
{
    match table.intern(text)? {
        Sym::Word(word) => Ok(word),
        _ => Err(InternFault::NoMemory),
    }
}

/// `sp {state (state) -->}`
fn smallest(alloc: Global, sp: u32) -> Result<List<Token>, AllocError>
    ensures known { IfOk result (λ tokens. (words : Texts) → sp < length words → AreTokensKnown words tokens) }
    ensures few { IfOk result (λ tokens. length tokens ≤ 2 ^ 26) }
{
    let tokens = vec![in alloc;
        bare(sp),
        mark(b'{'),
        bare(0),
        mark(b'('),
        bare(0),
        mark(b')'),
        arrow(0, 0),
        mark(b'}'),
    ]?;
    Ok(List::from_vec(tokens))
}

/// Whether these tokens spell a tree with one condition and no action.
fn is_tree(alloc: Global, table: &SymTable, tokens: &List<Token>) -> bool
    requires { AreTokensKnown table.now tokens.now }
{
    match read_tree(alloc, table, tokens.as_slice()) {
        Ok(tree) => tree.parts.is_empty() && tree.actions.is_empty(),
        Err(_) => false,
    }
}

/// Whether they spell a production with one condition and two new variables.
fn is_production(alloc: Global, table: &mut SymTable, tokens: &List<Token>) -> bool
    requires known { AreTokensKnown table.old tokens.now }
    requires few { length tokens.now ≤ 2 ^ 26 }
{
    match read_production(alloc, table, tokens) {
        Ok(production) => production.conds.len() == 1 && production.vars.len() == 2,
        Err(_) => false,
    }
}

#[test]
fn the_smallest_production_is_read(rt: HostRuntime) -> Result<(), Fail> {
    let mut table = SymTable::new(rt.alloc())?;
    let sp = word(&mut table, "sp")?;
    let tokens = smallest(rt.alloc(), sp)?;
    assert!(rt;
        is_tree(rt.alloc(), &table, &tokens) && is_production(rt.alloc(), &mut table, &tokens)
    );
    Ok(())
}

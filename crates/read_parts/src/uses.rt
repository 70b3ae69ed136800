// The variables of a text, which its expansion goes by.
ghost use Rattle.std.specs.Prelude.{◌≡◌, ◌<◌, [], ◌∷◌, ◌++◌, length, IfOk, OnOk};
ghost use Rattle.soar_sym.specs.Words.{text_of};
ghost use Rattle.defs_read.specs.Expansion.{name_in, names_in};
ghost use Rattle.defs_read.specs.Sayings.{saying_of, sayings, AreTokensKnown, IsKindKnown};
ghost use Rattle.read_parts.specs.Using.{AreUses};
ghost use Rattle.read_parts.specs.Words.{begins_dollar, texts_of};

use defs_text::{Token, TokenKind};
use indexmap::IndexSet;
use soar_sym::{List, NoMemory, Sym, SymTable};
use std::alloc::Global;

/// The words of a text's variables, each once; one for each that stands there; and those of them whose texts begin with `$`.
#[derive(Drop)]
pub struct Uses {
    pub variables: IndexSet<u32>,
    pub used: List<u32>,
    pub dollars: List<u32>,
}

/// Whether the text of a word begins with `$`.
fn begins_dollar(table: &SymTable, word: u32) -> bool
    requires { word < length table.now }
    ensures { result ≡ begins_dollar (text_of table.now word) }
{
    table.text(word).as_bytes().first() == Some(&b'$')
}

/// Adds the word of a variable.
fn add_variable(table: &SymTable, uses: &mut Uses, word: u32) -> Result<(), NoMemory>
    requires within { word < length table.now }
    requires are { AreUses table.now uses.old }
    ensures are { OnOk result (AreUses table.now uses.new) }
    ensures used { OnOk result (texts_of table.now uses.new.used ≡ texts_of table.now uses.old.used ++ text_of table.now word ∷ []) }
{
    table.law();
    uses.variables.insert(word)?;
    uses.used.push(word)?;
    if begins_dollar(table, word) {
        uses.dollars.push(word)?;
    }
    Ok(())
}

/// Adds what a token says.
fn add_token(table: &SymTable, uses: &mut Uses, kind: &TokenKind) -> Result<(), NoMemory>
    requires known { IsKindKnown table.now kind.now }
    requires are { AreUses table.now uses.old }
    ensures are { OnOk result (AreUses table.now uses.new) }
    ensures used { OnOk result (texts_of table.now uses.new.used ≡ texts_of table.now uses.old.used ++ name_in (saying_of table.now kind.now)) }
{
    match kind {
        TokenKind::Var(Sym::Word(word)) => add_variable(table, uses, *word),
        _ => Ok(()),
    }
}

/// The variables of a text.
pub fn uses_of(alloc: Global, table: &SymTable, tokens: &[Token]) -> Result<Uses, NoMemory>
    requires { AreTokensKnown table.now tokens.now }
    ensures are { IfOk result (λ uses. AreUses table.now uses) }
    ensures used { IfOk result (λ uses. texts_of table.now uses.used ≡ names_in (sayings table.now tokens.now)) }
{
    let mut uses = Uses {
        variables: IndexSet::new(alloc),
        used: List::new(alloc),
        dollars: List::new(alloc),
    };
    'tokens: for token in tokens {
        add_token(table, &mut uses, &token.kind)?;
    }
    Ok(uses)
}

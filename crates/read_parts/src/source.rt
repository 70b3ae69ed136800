// What an expansion reads and leaves as it is.
ghost use Rattle.std.specs.Prelude.{◌≡◌, IfOk};
ghost use Rattle.defs_read.specs.Sayings.{word_text};
ghost use Rattle.defs_text.specs.Numbered.{word_in};
ghost use Rattle.read_parts.specs.Using.{AreUses};

use crate::uses::Uses;
use soar_sym::{NoMemory, Sym, SymTable};
use std::alloc::Global;

/// The table of a tree's words, and the variables of its text.
#[derive(Drop)]
pub struct Source<'a> {
    pub alloc: Global,
    pub table: &'a SymTable,
    pub uses: &'a Uses,
    ghost are: { AreUses table.now uses.now },
}

impl Source<'_> {
    /// The word of a name's text, which is the name. Each name that a tree has is a word of the table.
    pub fn word(&self, name: Sym) -> Result<Sym, NoMemory>
        ensures { IfOk result (λ s. s ≡ word_in self.now.table.now (word_text self.now.table.now name)) }
    {
        self.table.law();
        match name {
            Sym::Word(word) if word < self.table.word_count() => Ok(name),
            _ => Err(NoMemory),
        }
    }
}

// Identifiers of commands that there are not, or that no goal reaches, and of which level they are.
ghost use Rattle.std.specs.Prelude.{◌≡◌, Some, None, IfOk, if◌then◌else◌};
ghost use Rattle.soar_sym.specs.Words.{IsKnown};
ghost use Rattle.defs_text.specs.Symbols.{symbol_text};
ghost use Rattle.defs_run.specs.Inputs.{first_unknown, is_top_level, or_else, unreached_in, unreached_symbol};
ghost use Rattle.defs_run.specs.Sessions.{Session, bracketed, unknown_in};
ghost use Rattle.command_orders.specs.Asked.{operand_seen};
ghost use Rattle.command_orders.specs.Known.{IsAdditionKnown, IsOperandKnown};
ghost use Rattle.session_parts.specs.Given.{HasLetter, is_given_by};
ghost use Rattle.session_parts.specs.Lookups.{session_with};
ghost use Rattle.session_parts.specs.Told.{AreLevelsTold};

use crate::lookup::Lookup;
use crate::texts::symbol_text;
use defs_run::{Addition, Operand};
use soar_sym::{Letters, NoMemory, Sym, SymTable, Text};
use std::alloc::Global;

impl Lookup<'_> {
    /// The text of the first identifier of an addition that there is not. Where it is asked for, a goal has to reach the
    /// first one, too.
    pub fn first_unknown(
        &self,
        reached: bool,
        addition: &Addition,
    ) -> Result<Option<Text>, NoMemory>
        requires known { IsAdditionKnown self.now.table.now addition.now }
        requires told { AreLevelsTold self.now }
        ensures { (s : Session) →
            IfOk result (λ text. text ≡ first_unknown reached (session_with self.now s) (operand_seen addition.now.id) (operand_seen addition.now.attr) (operand_seen addition.now.value)) }
    {
        if let Some(text) = self.unknown_in(&addition.id)? {
            return Ok(Some(text));
        }
        if let Some(text) = self.unreached_where(reached, &addition.id)? {
            return Ok(Some(text));
        }
        if let Some(text) = self.unknown_in(&addition.attr)? {
            return Ok(Some(text));
        }
        self.unknown_in(&addition.value)
    }

    /// The text of an operand that is an identifier that was never given.
    pub fn unknown_in(&self, operand: &Operand) -> Result<Option<Text>, NoMemory>
        requires { IsOperandKnown self.now.table.now operand.now }
        ensures { (s : Session) → IfOk result (λ text. text ≡ unknown_in (session_with self.now s) (operand_seen operand.now)) }
    {
        match operand {
            Operand::Symbol(symbol) => {
                unless_given(self.alloc, self.table, self.letters, *symbol)
            }
            Operand::Label(_) => Ok(None),
        }
    }

    /// The text of the first identifier of a slot that was never given.
    pub fn unknown_in_slot(&self, id: &Operand, attr: &Operand) -> Result<Option<Text>, NoMemory>
        requires id { IsOperandKnown self.now.table.now id.now }
        requires attr { IsOperandKnown self.now.table.now attr.now }
        ensures { (s : Session) →
            IfOk result (λ text. text ≡ or_else (unknown_in (session_with self.now s) (operand_seen id.now)) (unknown_in (session_with self.now s) (operand_seen attr.now))) }
    {
        if let Some(text) = self.unknown_in(id)? {
            return Ok(Some(text));
        }
        self.unknown_in(attr)
    }

    /// The text of an operand that no goal reaches, where it is asked for.
    fn unreached_where(&self, reached: bool, operand: &Operand) -> Result<Option<Text>, NoMemory>
        requires known { IsOperandKnown self.now.table.now operand.now }
        requires told { AreLevelsTold self.now }
        ensures { (s : Session) →
            IfOk result (λ text. text ≡ (if reached then unreached_in (session_with self.now s) (operand_seen operand.now) else None)) }
    {
        if reached {
            self.unreached_in(operand)
        } else {
            Ok(None)
        }
    }

    /// The text of an operand that no goal reaches; a label that stands for nothing yet is told with its brackets.
    fn unreached_in(&self, operand: &Operand) -> Result<Option<Text>, NoMemory>
        requires known { IsOperandKnown self.now.table.now operand.now }
        requires told { AreLevelsTold self.now }
        ensures { (s : Session) → IfOk result (λ text. text ≡ unreached_in (session_with self.now s) (operand_seen operand.now)) }
    {
        match operand {
            Operand::Symbol(symbol) => self.unreached_symbol(*symbol),
            Operand::Label(name) => match self.labels.find(name.as_str()) {
                Some(symbol) => self.unreached_symbol(symbol),
                None => Ok(Some(bracketed(self.alloc, name.as_str())?)),
            },
        }
    }

    /// The text of a symbol that no goal reaches.
    fn unreached_symbol(&self, symbol: Sym) -> Result<Option<Text>, NoMemory>
        requires known { IsKnown self.now.table.now symbol }
        requires told { AreLevelsTold self.now }
        ensures { (s : Session) → IfOk result (λ text. text ≡ unreached_symbol (session_with self.now s) symbol) }
    {
        if self.levels.level_of(symbol).is_some() {
            Ok(None)
        } else {
            Ok(Some(symbol_text(self.alloc, self.table, symbol)?))
        }
    }

    /// Whether a symbol is an identifier of the first level.
    pub fn is_top_level(&self, symbol: Sym) -> bool
        requires { AreLevelsTold self.now }
        ensures { (s : Session) → result ≡ is_top_level (session_with self.now s) symbol }
    {
        match self.levels.level_of(symbol) {
            Some(level) => level == 1,
            None => false,
        }
    }
}

/// The text of a symbol, unless it was given.
fn unless_given(
    alloc: Global,
    table: &SymTable,
    letters: &Letters,
    symbol: Sym,
) -> Result<Option<Text>, NoMemory>
    requires { IsKnown table.now symbol }
    ensures { IfOk result (λ text. text ≡ (if is_given_by letters.now symbol then None else Some (symbol_text table.now symbol))) }
{
    if is_given(letters, symbol) {
        Ok(None)
    } else {
        Ok(Some(symbol_text(alloc, table, symbol)?))
    }
}

/// Whether an identifier was given. Words and integers always are.
fn is_given(letters: &Letters, symbol: Sym) -> bool
    requires { HasLetter symbol }
    ensures { result ≡ is_given_by letters.now symbol }
{
    match symbol {
        Sym::Ident { letter, number } => number <= letters.last(letter),
        _ => true,
    }
}

/// The name of a label in its brackets.
fn bracketed(alloc: Global, name: &str) -> Result<Text, NoMemory>
    ensures { IfOk result (λ text. text ≡ bracketed name.now) }
{
    Ok(Text::from_string(format!(in alloc; "<{name}>")?))
}

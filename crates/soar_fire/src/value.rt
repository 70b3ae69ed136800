// What atoms and values of actions stand for.
ghost use Rattle.std.specs.Prelude.{◌≡◌, ◌≤◌, map, IfOk, OnOk};
ghost use Rattle.soar_rule.specs.Productions.{value_seen, values_of};
ghost use Rattle.soar_rule.specs.Symbols.{constants_of_atom, constants_of_value, constants_of_values};
ghost use Rattle.soar_sym.specs.Words.{IsKnown};
ghost use Rattle.defs_match.specs.Testing.{symbol_of};
ghost use Rattle.defs_soar.specs.Naming.{letter_from, name_at, text_of_name};
ghost use Rattle.soar_fire.specs.Growth.{OnlyGrows, OnlyRise, OnlyGains};
ghost use Rattle.soar_fire.specs.Known.{Knows, bound_symbols};
ghost use Rattle.soar_fire.specs.Outcomes.{atom_outcome, call_outcome, new_identifier, standing, value_outcome, values_outcome, word_of_text, Answers, Finds};

use crate::fault::FireFault;
use crate::functions::{Computed, compute};
use crate::plain::text_of;
use crate::scene::Scene;
use defs_soar::DropCause;
use soar_rule::{Atom, Func, Value};
use soar_sym::{InternFault, Letters, List, Sym, SymTable};
use std::alloc::Global;

/// The letter of a new identifier for a variable of this name: the first of the name as a capital, or I.
fn letter_of(table: &SymTable, name: Sym) -> u8
    ensures letter { result ≡ letter_from (text_of_name table.now name) }
    ensures low { 65 ≤ result }
    ensures high { result ≤ 90 }
{
    match name {
        Sym::Word(word) => letter_from(text_of(table, word).as_bytes()),
        _ => b'I',
    }
}

fn letter_from(name: &[u8]) -> u8
    ensures letter { result ≡ letter_from name.now }
    ensures low { 65 ≤ result }
    ensures high { result ≤ 90 }
{
    match name.first() {
        Some(first) if first.is_ascii_alphabetic() => first.to_ascii_uppercase(),
        _ => b'I',
    }
}

fn name_at(vars: &[Sym], variable: u32) -> Sym
    ensures { result ≡ name_at vars.now variable }
{
    match vars.get(variable as usize) {
        Some(name) => *name,
        None => Sym::Word(0),
    }
}

fn symbol_of(variable: u32, bindings: &[(u32, Sym)]) -> Option<Sym>
    ensures { result ≡ symbol_of variable bindings.now }
{
    'bindings: for binding in bindings {
        if binding.0 == variable {
            return Some(binding.1);
        }
    }
    None
}

/// Binds a variable to a new identifier.
#[tactic(auto, using(crate::proofs::GrowthLemmas::letters_next, crate::proofs::GrowthLemmas::letters_same))]
fn new_identifier(
    variable: u32,
    letter: u8,
    bindings: &mut Vec<(u32, Sym)>,
    table: &SymTable,
    letters: &mut Letters,
) -> Result<Sym, FireFault>
    requires low { 65 ≤ letter }
    requires high { letter ≤ 90 }
    requires bound { Knows table.now (bound_symbols bindings.old.items) }
    ensures answer { Finds (new_identifier variable letter (standing bindings.old.items table.now letters.old)) (standing bindings.new.items table.now letters.new) result }
    ensures known { IfOk result (λ s. IsKnown table.now s) }
    ensures bound { OnOk result (Knows table.now (bound_symbols bindings.new.items)) }
    ensures letters { OnlyRise letters.old letters.new }
{
    match letters.next(letter) {
        Ok(symbol) => {
            bindings.push((variable, symbol))?;
            Ok(symbol)
        }
        Err(_) => Err(FireFault::IdsSpent),
    }
}

/// What an atom stands for. An unbound variable is bound to a new identifier.
#[tactic(auto, using(crate::proofs::GrowthLemmas::letters_none, crate::proofs::KnownLemmas::knows_bound, crate::proofs::KnownLemmas::knows_head))]
pub fn atom_of_action(
    scene: &Scene<'_>,
    atom: Atom,
    bindings: &mut Vec<(u32, Sym)>,
    table: &SymTable,
    letters: &mut Letters,
) -> Result<Sym, FireFault>
    requires bound { Knows table.now (bound_symbols bindings.old.items) }
    requires constants { Knows table.now (constants_of_atom atom) }
    ensures answer { Finds (atom_outcome scene.now.vars.now atom (standing bindings.old.items table.now letters.old)) (standing bindings.new.items table.now letters.new) result }
    ensures known { IfOk result (λ s. IsKnown table.now s) }
    ensures bound { OnOk result (Knows table.now (bound_symbols bindings.new.items)) }
    ensures letters { OnlyRise letters.old letters.new }
{
    match atom {
        Atom::Const(symbol) => Ok(symbol),
        Atom::Var(variable) => match symbol_of(variable, bindings.as_slice()) {
            Some(symbol) => Ok(symbol),
            None => {
                let letter = letter_of(table, name_at(scene.vars, variable));
                new_identifier(variable, letter, bindings, table, letters)
            }
        },
    }
}

/// The word of a text.
#[tactic(auto, using(crate::proofs::GrowthLemmas::grown_by, crate::proofs::GrowthLemmas::grown_same))]
pub fn word_of_text(
    text: &str,
    bindings: &[(u32, Sym)],
    table: &mut SymTable,
    letters: &Letters,
) -> Result<Sym, FireFault>
    ensures answer { Finds (word_of_text text.now (standing bindings.now table.old letters.now)) (standing bindings.now table.new letters.now) result }
    ensures known { IfOk result (λ s. IsKnown table.new s) }
    ensures grown { OnlyGrows table.old table.new }
{
    match table.intern(text) {
        Ok(symbol) => Ok(symbol),
        Err(InternFault::WordsSpent) => Err(FireFault::WordsSpent),
        Err(InternFault::NoMemory) => Err(FireFault::NoMemory),
    }
}

/// What a function gives for symbols; a text that it spells becomes a word.
#[tactic(auto, using(crate::proofs::GrowthLemmas::not_grown))]
pub fn called(
    alloc: Global,
    func: Func,
    symbols: &[Sym],
    bindings: &[(u32, Sym)],
    table: &mut SymTable,
    letters: &Letters,
) -> Result<Result<Sym, DropCause>, FireFault>
    requires { Knows table.old symbols.now }
    ensures answer { Answers (call_outcome func symbols.now (standing bindings.now table.old letters.now)) (standing bindings.now table.new letters.now) result }
    ensures known { IfOk result (λ r. IfOk r (λ s. IsKnown table.new s)) }
    ensures grown { OnlyGrows table.old table.new }
{
    match compute(alloc, table, func, symbols)? {
        Computed::Gives(symbol) => Ok(Ok(symbol)),
        Computed::Spells(text) => {
            let symbol = word_of_text(text.as_str(), bindings, table, letters)?;
            Ok(Ok(symbol))
        }
        Computed::Fails(cause) => Ok(Err(cause)),
    }
}

/// What a value stands for.
#[cycle(values)]
pub fn evaluated(
    scene: &Scene<'_>,
    value: &Value,
    bindings: &mut Vec<(u32, Sym)>,
    table: &mut SymTable,
    letters: &mut Letters,
) -> Result<Result<Sym, DropCause>, FireFault>
    requires bound { Knows table.old (bound_symbols bindings.old.items) }
    requires constants { Knows table.old (constants_of_value (value_seen value.now)) }
    ensures answer { Answers (value_outcome scene.now.vars.now (value_seen value.now) (standing bindings.old.items table.old letters.old)) (standing bindings.new.items table.new letters.new) result }
    ensures known { IfOk result (λ r. IfOk r (λ s. IsKnown table.new s)) }
    ensures bound { OnOk result (Knows table.new (bound_symbols bindings.new.items)) }
    ensures gains { OnlyGains table.old letters.old table.new letters.new }
{
    match value {
        Value::Atom(atom) => {
            let symbol = atom_of_action(scene, *atom, bindings, table, letters)?;
            Ok(Ok(symbol))
        }
        Value::Call(func, values) => {
            match evaluated_all(scene, values.as_slice(), bindings, table, letters)? {
                Ok(symbols) => called(
                    scene.alloc,
                    *func,
                    symbols.as_slice(),
                    bindings.as_slice(),
                    table,
                    letters,
                ),
                Err(cause) => Ok(Err(cause)),
            }
        }
    }
}

/// What values stand for, from left to right, up to the first that stands for nothing.
#[tactic(auto, using(crate::proofs::GrowthLemmas::gains_none))]
#[cycle(values)]
pub fn evaluated_all(
    scene: &Scene<'_>,
    values: &[Value],
    bindings: &mut Vec<(u32, Sym)>,
    table: &mut SymTable,
    letters: &mut Letters,
) -> Result<Result<List<Sym>, DropCause>, FireFault>
    requires bound { Knows table.old (bound_symbols bindings.old.items) }
    requires constants { Knows table.old (constants_of_values (values_of (map value_seen values.now))) }
    ensures answer { Answers (values_outcome scene.now.vars.now (values_of (map value_seen values.now)) (standing bindings.old.items table.old letters.old)) (standing bindings.new.items table.new letters.new) result }
    ensures known { IfOk result (λ r. IfOk r (λ symbols. Knows table.new symbols)) }
    ensures bound { OnOk result (Knows table.new (bound_symbols bindings.new.items)) }
    ensures gains { OnlyGains table.old letters.old table.new letters.new }
{
    let mut symbols = List::new(scene.alloc);
    'values: for value in values {
        match evaluated(scene, value, bindings, table, letters)? {
            Ok(symbol) => symbols.push(symbol)?,
            Err(cause) => return Ok(Err(cause)),
        }
    }
    Ok(Ok(symbols))
}

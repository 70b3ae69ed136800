// Whether what is shown is a text.
ghost use Rattle.std.specs.Prelude.{◌≡◌, [], IfOk};
ghost use Rattle.soar_rule.specs.Productions.{production_seen};
ghost use Rattle.soar_rule.specs.Symbols.{AreKnown, symbols_of};
ghost use Rattle.soar_sym.specs.Words.{IsKnown, architecture};

use crate::shown_texts::production::spelled;
use defs_match::Instance;
use soar_rule::{Cond, Field, Kind, Pattern, Production, Support};
use soar_show::{show_element, show_instance, show_production, show_symbol};
use soar_sym::{List, NoMemory, Sym, SymTable, Text};
use soar_wm::Element;
use std::alloc::{AllocError, Global};
use std::test::Fail;

/// Whether a row of a word and its text holds.
pub fn word_is(alloc: Global, row: &str) -> Result<bool, Fail> {
    let mut table = SymTable::new(alloc)?;
    match row.split_once(" => ") {
        Some((word, wanted)) => {
            let symbol = table.intern(word)?;
            let mut out = Text::new(alloc);
            show_symbol(&mut out, &table, symbol)?;
            Ok(out.as_str() == wanted)
        }
        None => Ok(false),
    }
}

/// Whether these symbols, each behind a blank, are appended to `x`.
pub fn symbols_are(alloc: Global, wanted: &str) -> Result<bool, NoMemory> {
    let table = SymTable::new(alloc)?;
    let mut out = Text::from_str(alloc, "x")?;
    push_integers(&mut out, &table)?;
    push_identifiers(&mut out, &table)?;
    Ok(out.as_str() == wanted)
}

fn push_integers(out: &mut Text, table: &SymTable) -> Result<(), NoMemory> {
    for value in [0, -5, i64::MAX, i64::MIN] {
        push_behind_blank(out, table, Sym::Int(value))?;
    }
    Ok(())
}

fn push_identifiers(out: &mut Text, table: &SymTable) -> Result<(), NoMemory> {
    for (letter, number) in [(b'S', 1), (b'Z', 4_294_967_295)] {
        push_behind_blank(out, table, Sym::Ident { letter, number })?;
    }
    Ok(())
}

fn push_behind_blank(out: &mut Text, table: &SymTable, symbol: Sym) -> Result<(), NoMemory>
    requires { IsKnown table.now symbol }
{
    out.push(' ')?;
    show_symbol(out, table, symbol)
}

/// Whether an instance with these tags is shown so, under the name of its rule.
pub fn instance_is(alloc: Global, name: &str, tags: &[u32], wanted: &str) -> Result<bool, Fail> {
    let mut table = SymTable::new(alloc)?;
    let name = table.intern(name)?;
    let instance = instance(alloc, tags)?;
    let mut out = Text::new(alloc);
    show_instance(&mut out, &table, &instance, name)?;
    Ok(out.as_str() == wanted)
}

/// An instance with these tags that binds nothing.
fn instance(alloc: Global, tags: &[u32]) -> Result<Instance, AllocError> {
    Ok(Instance {
        rule: 1,
        tags: List::from_slice(alloc, tags)?,
        binds: List::new(alloc),
    })
}

/// Whether `(S1 ^operator VALUE)` under a tag is shown so.
pub fn element_is(
    alloc: Global,
    tag: u32,
    value: Sym,
    accept: bool,
    wanted: &str,
) -> Result<bool, NoMemory>
    requires { IsKnown architecture value }
{
    let table = SymTable::new(alloc)?;
    let element = Element {
        tag,
        id: Sym::Ident {
            letter: b'S',
            number: 1,
        },
        attr: Sym::Word(7),
        value,
        accept,
        of_state: true,
    };
    let mut out = Text::new(alloc);
    show_element(&mut out, &table, &element)?;
    Ok(out.as_str() == wanted)
}

/// Whether the production that a text spells is shown as that text.
pub fn production_is_kept(alloc: Global, text: &str) -> Result<bool, NoMemory> {
    let mut table = SymTable::new(alloc)?;
    match spelled(alloc, &mut table, text)? {
        Some(production) => production_is(alloc, &table, &production, text),
        None => Ok(false),
    }
}

/// Whether a production is appended as this text.
fn production_is(
    alloc: Global,
    table: &SymTable,
    production: &Production,
    wanted: &str,
) -> Result<bool, NoMemory>
    requires { AreKnown table.now (symbols_of (production_seen production.now)) }
{
    let mut out = Text::from_str(alloc, "x\n")?;
    show_production(&mut out, table, production)?;
    Ok(out.as_str().strip_prefix("x\n") == Some(wanted))
}

/// A production of a name and a condition without tests, which no text spells.
fn bare_production(alloc: Global) -> Result<Production, AllocError>
    ensures { IfOk result (λ p. AreKnown architecture (symbols_of (production_seen p))) }
{
    let conds = List::from_vec(vec![in alloc;
        Cond::Pos(Pattern {
            state: false,
            id: no_test(alloc),
            attr: no_test(alloc),
            value: no_test(alloc),
            accept: false,
        }),
    ]?);
    Ok(Production {
        name: Sym::Int(-5),
        doc: None,
        kind: Kind::Justification,
        support: Support::Unset,
        vars: List::new(alloc),
        conds,
        actions: List::new(alloc),
    })
}

fn no_test(alloc: Global) -> Field
    ensures { result.tests ≡ [] }
{
    Field {
        tests: List::new(alloc),
    }
}

/// Whether that production is appended as this text.
pub fn bare_production_is(alloc: Global, wanted: &str) -> Result<bool, NoMemory> {
    let table = SymTable::new(alloc)?;
    let production = bare_production(alloc)?;
    production_is(alloc, &table, &production, wanted)
}

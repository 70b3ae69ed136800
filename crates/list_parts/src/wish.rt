// The texts of preferences.
ghost use Rattle.std.specs.Prelude.{◌≡◌, ◌++◌, string_bytes, IfOk, OnErr, OnOk};
ghost use Rattle.soar_rule.specs.Symbols.{AreKnown};
ghost use Rattle.defs_soar.specs.Dependencies.{symbols_of_referent, symbols_of_wish};
ghost use Rattle.defs_soar.specs.Texts.{referent_text, sign_text, wish_text};

use crate::texts::symbol_text;
use defs_soar::{PrefKind, Wish};
use soar_show::show_symbol;
use soar_sym::{NoMemory, Sym, SymTable, Text};
use std::alloc::Global;

/// Appends the text of a preference, as `(S1 ^operator O1 > O2)`.
pub fn show_wish(table: &SymTable, wish: &Wish, out: &mut Text) -> Result<(), NoMemory>
    requires { AreKnown table.now (symbols_of_wish wish.now) }
    ensures ok { OnOk result (out.new ≡ out.old ++ wish_text table.now wish.now) }
    ensures err { OnErr result (out.new ≡ out.old) }
{
    let text = wish_text(out.allocator(), table, wish)?;
    out.push_str(text.as_str())?;
    Ok(())
}

/// The text of a preference.
pub fn wish_text(alloc: Global, table: &SymTable, wish: &Wish) -> Result<String, NoMemory>
    requires { AreKnown table.now (symbols_of_wish wish.now) }
    ensures { IfOk result (λ text. string_bytes text ≡ wish_text table.now wish.now) }
{
    let id = symbol_text(alloc, table, wish.id)?;
    let attr = symbol_text(alloc, table, wish.attr)?;
    let value = symbol_text(alloc, table, wish.value)?;
    let sign = sign_text(alloc, table, wish.kind, wish.referent)?;
    let (id, attr, value, sign) = (id.as_str(), attr.as_str(), value.as_str(), sign.as_str());
    Ok(format!(in alloc; "({id} ^{attr} {value} {sign})")?)
}

/// What a preference says of its value: its sign, and the referent where its kind has one.
fn sign_text(
    alloc: Global,
    table: &SymTable,
    kind: PrefKind,
    referent: Option<Sym>,
) -> Result<Text, NoMemory>
    requires { AreKnown table.now (symbols_of_referent referent) }
    ensures { IfOk result (λ text. text ≡ sign_text table.now kind referent) }
{
    match kind {
        PrefKind::Accept => with_referent(alloc, table, "+", None),
        PrefKind::Require => with_referent(alloc, table, "!", None),
        PrefKind::Reject => with_referent(alloc, table, "-", None),
        PrefKind::Prohibit => with_referent(alloc, table, "~", None),
        PrefKind::Better => with_referent(alloc, table, ">", referent),
        PrefKind::Worse => with_referent(alloc, table, "<", referent),
        PrefKind::Best => with_referent(alloc, table, ">", None),
        PrefKind::Worst => with_referent(alloc, table, "<", None),
        PrefKind::Indifferent => with_referent(alloc, table, "=", None),
        PrefKind::Numeric => with_referent(alloc, table, "=", referent),
        PrefKind::IndifferentTo => with_referent(alloc, table, "=", referent),
    }
}

/// A sign, and a referent behind a blank where there is one.
fn with_referent(
    alloc: Global,
    table: &SymTable,
    sign: &str,
    referent: Option<Sym>,
) -> Result<Text, NoMemory>
    requires { AreKnown table.now (symbols_of_referent referent) }
    ensures { IfOk result (λ text. text ≡ sign.now ++ referent_text table.now referent) }
{
    let mut text = Text::from_str(alloc, sign)?;
    if let Some(symbol) = referent {
        text.push_str(" ")?;
        show_symbol(&mut text, table, symbol)?;
    }
    Ok(text)
}

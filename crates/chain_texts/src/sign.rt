// The sign of a preference.
ghost use Rattle.std.specs.Prelude.{◌≡◌, ◌++◌, IfOk};
ghost use Rattle.defs_soar.specs.Texts.{referent_text, sign_text};
ghost use Rattle.trace_laws.specs.Events.{IsOptionKnown, IsSignKnown};

use defs_soar::PrefKind;
use soar_show::show_symbol;
use soar_sym::{NoMemory, Sym, SymTable, Text};
use std::alloc::Global;

/// The sign of a kind, with the referent where the kind shows it.
pub fn sign_text(
    alloc: Global,
    table: &SymTable,
    kind: PrefKind,
    referent: Option<Sym>,
) -> Result<Text, NoMemory>
    requires { IsSignKnown table.now kind referent }
    ensures { IfOk result (λ text. text ≡ sign_text table.now kind referent) }
{
    match kind {
        PrefKind::Accept => plain(alloc, "+"),
        PrefKind::Require => plain(alloc, "!"),
        PrefKind::Reject => plain(alloc, "-"),
        PrefKind::Prohibit => plain(alloc, "~"),
        PrefKind::Better => compared(alloc, ">", table, referent),
        PrefKind::Worse => compared(alloc, "<", table, referent),
        PrefKind::Best => plain(alloc, ">"),
        PrefKind::Worst => plain(alloc, "<"),
        PrefKind::Indifferent => plain(alloc, "="),
        PrefKind::Numeric => compared(alloc, "=", table, referent),
        PrefKind::IndifferentTo => compared(alloc, "=", table, referent),
    }
}

fn plain(alloc: Global, sign: &str) -> Result<Text, NoMemory>
    ensures { IfOk result (λ text. text ≡ sign.now) }
{
    Ok(Text::from_str(alloc, sign)?)
}

/// A sign, and the referent behind a blank where there is one.
fn compared(
    alloc: Global,
    sign: &str,
    table: &SymTable,
    referent: Option<Sym>,
) -> Result<Text, NoMemory>
    requires { IsOptionKnown table.now referent }
    ensures { IfOk result (λ text. text ≡ sign.now ++ referent_text table.now referent) }
{
    let mut text = Text::from_str(alloc, sign)?;
    if let Some(referent) = referent {
        text.push_str(" ")?;
        show_symbol(&mut text, table, referent)?;
    }
    Ok(text)
}

// Preferences as text.
ghost use Rattle.std.specs.Prelude.{◌≡◌, ◌++◌, string_bytes, IfOk, OnErr, OnOk};
ghost use Rattle.defs_soar.specs.Texts.{wish_text};
ghost use Rattle.trace_laws.specs.Events.{IsWishKnown};

use crate::sign::sign_text;
use defs_soar::Wish;
use soar_show::symbol_text;
use soar_sym::{NoMemory, SymTable, Text};
use std::alloc::Global;

/// Appends a preference in brackets, as `(S1 ^operator O1 > O2)`, with the referent where its kind shows it.
pub fn show_wish(out: &mut Text, table: &SymTable, wish: &Wish) -> Result<(), NoMemory>
    requires { IsWishKnown table.now wish.now }
    ensures ok { OnOk result (out.new ≡ out.old ++ wish_text table.now wish.now) }
    ensures err { OnErr result (out.new ≡ out.old) }
{
    let text = wish_text(out.allocator(), table, wish)?;
    out.push_str(text.as_str())?;
    Ok(())
}

fn wish_text(alloc: Global, table: &SymTable, wish: &Wish) -> Result<String, NoMemory>
    requires { IsWishKnown table.now wish.now }
    ensures { IfOk result (λ text. string_bytes text ≡ wish_text table.now wish.now) }
{
    let id = symbol_text(alloc, table, wish.id)?;
    let attr = symbol_text(alloc, table, wish.attr)?;
    let value = symbol_text(alloc, table, wish.value)?;
    let sign = sign_text(alloc, table, wish.kind, wish.referent)?;
    let (id, attr, value, sign) = (id.as_str(), attr.as_str(), value.as_str(), sign.as_str());
    Ok(format!(in alloc; "({id} ^{attr} {value} {sign})")?)
}

// Productions as text.
ghost use Rattle.std.specs.Prelude.{◌≡◌, ◌++◌, codes, OnOk, OnErr};
ghost use Rattle.soar_sym.specs.Words.{IsKnown};
ghost use Rattle.soar_rule.specs.Productions.{production_seen};
ghost use Rattle.soar_rule.specs.Symbols.{AreKnown, symbols_of};
ghost use Rattle.defs_text.specs.Symbols.{symbol_text};
ghost use Rattle.defs_read.specs.Printing.{doc_lines, kind_lines, lines_text, production_text, support_lines};
ghost use Rattle.soar_show.specs.Lines.{inner_text};

use crate::actions::push_actions;
use crate::conditions::push_conditions;
use crate::names::Names;
use crate::symbol::push_symbol;
use crate::word::push_escaped;
use soar_rule::{Kind, Production, Support};
use soar_sym::{NoMemory, Sym, SymTable, Text};
use std::alloc::AllocError;

/// Appends the text of a production, each line with a newline behind it: `sp {` and the name, the documentation,
/// the flags, the conditions, `-->`, the actions, and a brace. Want of memory leaves the text as it was.
pub fn show_production(
    out: &mut Text,
    table: &SymTable,
    production: &Production,
) -> Result<(), NoMemory>
    requires { AreKnown table.now (symbols_of (production_seen production.now)) }
    ensures ok { OnOk result (out.new ≡ out.old ++ lines_text (production_text table.now (production_seen production.now))) }
    ensures err { OnErr result (out.new ≡ out.old) }
{
    let mut text = Text::new(out.allocator());
    push_production(&mut text, table, production)?;
    out.push_str(text.as_str())?;
    Ok(())
}

fn push_production(
    out: &mut Text,
    table: &SymTable,
    production: &Production,
) -> Result<(), AllocError>
    requires { AreKnown table.now (symbols_of (production_seen production.now)) }
    ensures { OnOk result (out.new ≡ out.old ++ lines_text (production_text table.now (production_seen production.now))) }
{
    let names = Names {
        table,
        vars: production.vars.as_slice(),
    };
    push_head(out, table, production.name)?;
    push_doc(out, &production.doc)?;
    push_kind(out, production.kind)?;
    push_support(out, production.support)?;
    push_conditions(out, &names, production.conds.as_slice())?;
    out.push_str("    -->\n")?;
    push_actions(out, &names, production.actions.as_slice())?;
    out.push_str("}\n")
}

/// Appends the line with the name.
fn push_head(out: &mut Text, table: &SymTable, name: Sym) -> Result<(), AllocError>
    requires { IsKnown table.now name }
    ensures { OnOk result (out.new ≡ out.old ++ ((codes "sp {" ++ symbol_text table.now name) ++ codes "\n")) }
{
    out.push_str("sp {")?;
    push_symbol(out, table, name)?;
    out.push('\n')
}

/// Appends the line with the documentation, where there is one.
fn push_doc(out: &mut Text, doc: &Option<Text>) -> Result<(), AllocError>
    ensures { OnOk result (out.new ≡ out.old ++ inner_text (doc_lines doc.now)) }
{
    match doc {
        None => Ok(()),
        Some(text) => {
            out.push_str("    \"")?;
            push_escaped(out, '"', text.as_str())?;
            out.push_str("\"\n")
        }
    }
}

/// Appends the line that says who made a production, where it is not the user.
fn push_kind(out: &mut Text, kind: Kind) -> Result<(), AllocError>
    ensures { OnOk result (out.new ≡ out.old ++ inner_text (kind_lines kind)) }
{
    match kind {
        Kind::User => Ok(()),
        Kind::Default => out.push_str("    :default\n"),
        Kind::Chunk => out.push_str("    :chunk\n"),
        Kind::Justification => out.push_str("    :justification\n"),
    }
}

/// Appends the line with the support that a production asks for, where it asks.
fn push_support(out: &mut Text, support: Support) -> Result<(), AllocError>
    ensures { OnOk result (out.new ≡ out.old ++ inner_text (support_lines support)) }
{
    match support {
        Support::Unset => Ok(()),
        Support::Operator => out.push_str("    :o-support\n"),
        Support::Instance => out.push_str("    :i-support\n"),
    }
}

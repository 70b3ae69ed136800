// The explanation of a learned production.
ghost use Rattle.std.specs.Prelude.{◌≡◌, ◌∷◌, ◌++◌, [], if◌then◌else◌, OnErr, OnOk};
ghost use Rattle.soar_sym.specs.Words.{IsKnown};
ghost use Rattle.soar_rule.specs.Symbols.{AreKnown};
ghost use Rattle.chain_texts.specs.Shown.{shown_symbols};
ghost use Rattle.defs_soar.specs.History.{chain_seen};
ghost use Rattle.defs_soar.specs.Texts.{chain_lines};
ghost use Rattle.session_parts.specs.Saying.{Says};
ghost use Rattle.trace_lines.specs.Saying.{SaysNothing};

use chain_texts::show_chain;
use defs_soar::Chain;
use soar_sym::{NoMemory, Sym, SymTable, Text};
use std::alloc::AllocError;

/// Appends the explanation of the learned production of a name, on lines of their own.
pub fn list_chain(
    table: &SymTable,
    name: Sym,
    chain: &Chain,
    out: &mut Text,
    mid_line: &mut bool,
) -> Result<(), NoMemory>
    requires name { IsKnown table.now name }
    requires chain { AreKnown table.now (shown_symbols (chain_seen chain.now)) }
    ensures ok { OnOk result (Says (chain_lines table.now name (chain_seen chain.now)) mid_line.old out.old mid_line.new out.new) }
    ensures err { OnErr result (SaysNothing mid_line.old out.old mid_line.new out.new) }
{
    let mut said = Text::new(out.allocator());
    let mut mid_said = *mid_line;
    say_chain(table, name, chain, &mut said, &mut mid_said)?;
    out.push_str(said.as_str())?;
    *mid_line = mid_said;
    Ok(())
}

/// Appends the explanation, of which want of memory may leave nothing but that a line was ended.
fn say_chain(
    table: &SymTable,
    name: Sym,
    chain: &Chain,
    out: &mut Text,
    mid_line: &mut bool,
) -> Result<(), NoMemory>
    requires name { IsKnown table.now name }
    requires chain { AreKnown table.now (shown_symbols (chain_seen chain.now)) }
    ensures { OnOk result (Says (chain_lines table.now name (chain_seen chain.now)) mid_line.old out.old mid_line.new out.new) }
{
    begin_line(out, *mid_line)?;
    show_chain(out, table, chain, name)?;
    *mid_line = false;
    Ok(())
}

/// Ends a line that was begun.
fn begin_line(out: &mut Text, mid_line: bool) -> Result<(), AllocError>
    ensures { OnOk result (out.new ≡ out.old ++ (if mid_line then 10 ∷ [] else [])) }
{
    if mid_line { out.push('\n') } else { Ok(()) }
}

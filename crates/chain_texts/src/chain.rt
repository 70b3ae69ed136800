// Explanations as text.
ghost use Rattle.std.specs.Prelude.{◌≡◌, [], ◌∷◌, ◌++◌, codes, flat_map, map, OnErr, OnOk};
ghost use Rattle.std.specs.List.{All};
ghost use Rattle.soar_sym.specs.Words.{IsKnown};
ghost use Rattle.soar_rule.specs.Symbols.{AreKnown};
ghost use Rattle.soar_wm.specs.WorkingMemory.{triple_of};
ghost use Rattle.defs_text.specs.Symbols.{symbol_text};
ghost use Rattle.defs_soar.specs.History.{chain_seen, step_seen};
ghost use Rattle.defs_soar.specs.Texts.{chain_lines};
ghost use Rattle.trace_laws.specs.Events.{IsTripleKnown};
ghost use Rattle.chain_texts.specs.Lines.{chain_text, grounds_text, step_text};
ghost use Rattle.chain_texts.specs.Shown.{AreLinesKnown, IsStepKnown, shown_symbols};

use crate::step::{push_element, push_step, push_wishes};
use defs_soar::{Chain, Step};
use soar_show::show_symbol;
use soar_sym::{NoMemory, Sym, SymTable, Text};
use soar_wm::Element;

/// Appends the explanation of the rule of a name, each line with a newline behind it: `explain` and the name, the grounds,
/// the steps with what firings made under them, the results, and `end`. Want of memory leaves the text as it was.
#[tactic(auto, using(crate::proofs::LineLemmas::chain_written))]
pub fn show_chain(
    out: &mut Text,
    table: &SymTable,
    chain: &Chain,
    name: Sym,
) -> Result<(), NoMemory>
    requires name { IsKnown table.now name }
    requires chain { AreKnown table.now (shown_symbols (chain_seen chain.now)) }
    ensures ok { OnOk result (out.new ≡ out.old ++ flat_map (λ line. line ++ 10 ∷ []) (chain_lines table.now name (chain_seen chain.now))) }
    ensures err { OnErr result (out.new ≡ out.old) }
{
    let mut text = Text::new(out.allocator());
    push_chain(&mut text, table, chain, name)?;
    out.push_str(text.as_str())?;
    Ok(())
}

/// Appends an explanation. Want of memory may leave a part of it.
fn push_chain(out: &mut Text, table: &SymTable, chain: &Chain, name: Sym) -> Result<(), NoMemory>
    requires name { IsKnown table.now name }
    requires chain { AreLinesKnown table.now chain.now }
    ensures { OnOk result (out.new ≡ out.old ++ chain_text table.now name (chain_seen chain.now)) }
{
    push_head(out, table, name)?;
    push_grounds(out, table, chain.grounds.as_slice())?;
    push_steps(out, table, chain.steps.as_slice())?;
    push_wishes(out, table, "result ", chain.results.as_slice())?;
    out.push_str("end\n")?;
    Ok(())
}

/// Appends the line with the name.
fn push_head(out: &mut Text, table: &SymTable, name: Sym) -> Result<(), NoMemory>
    requires { IsKnown table.now name }
    ensures { OnOk result (out.new ≡ out.old ++ (codes "explain " ++ (symbol_text table.now name ++ codes "\n"))) }
{
    out.push_str("explain ")?;
    show_symbol(out, table, name)?;
    out.push_str("\n")?;
    Ok(())
}

fn push_grounds(out: &mut Text, table: &SymTable, grounds: &[Element]) -> Result<(), NoMemory>
    requires { All (λ e. IsTripleKnown table.now (triple_of e)) grounds.now }
    ensures { OnOk result (out.new ≡ out.old ++ grounds_text table.now grounds.now) }
{
    'grounds: for ground in grounds {
        push_element(out, table, "ground ", ground)?;
    }
    Ok(())
}

fn push_steps(out: &mut Text, table: &SymTable, steps: &[Step]) -> Result<(), NoMemory>
    requires { All (λ s. IsStepKnown table.now (step_seen s)) steps.now }
    ensures { OnOk result (out.new ≡ out.old ++ flat_map (step_text table.now) (map step_seen steps.now)) }
{
    'steps: for step in steps {
        push_step(out, table, step)?;
    }
    Ok(())
}

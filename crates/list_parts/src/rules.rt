// The names of productions.
ghost use Rattle.std.specs.Prelude.{◌≡◌, ◌++◌, false, map, OnErr, OnOk};
ghost use Rattle.defs_text.specs.Symbols.{symbol_text};
ghost use Rattle.soar_sym.specs.Words.{IsKnown};
ghost use Rattle.defs_match.specs.Rules.{rule_seen};
ghost use Rattle.defs_soar.specs.Trace.{line_text};
ghost use Rattle.session_parts.specs.Saying.{Says};
ghost use Rattle.soar_settle.specs.Known.{AreRulesKnown};
ghost use Rattle.trace_lines.specs.Saying.{SaysNothing};
ghost use Rattle.list_parts.specs.Lists.{rule_line, rule_lines};

use crate::line::say_line;
use crate::texts::symbol_text;
use rule_shelf::Rules;
use soar_sym::{NoMemory, Sym, SymTable, Text};

/// Appends the names of all productions, one a line, or that there are none.
pub fn list_rules(
    table: &SymTable,
    rules: &Rules,
    out: &mut Text,
    mid_line: &mut bool,
) -> Result<(), NoMemory>
    requires { AreRulesKnown table.now (map rule_seen rules.now) }
    ensures ok { OnOk result (Says (rule_lines table.now (map rule_seen rules.now)) mid_line.old out.old mid_line.new out.new) }
    ensures err { OnErr result (SaysNothing mid_line.old out.old mid_line.new out.new) }
{
    if rules.len() == 0 {
        return say_line(out, mid_line, "no rules");
    }
    let mut said = Text::new(out.allocator());
    let mut mid_said = *mid_line;
    say_rules(table, rules, &mut said, &mut mid_said)?;
    out.push_str(said.as_str())?;
    *mid_line = mid_said;
    Ok(())
}

/// Appends the names, of which want of memory may leave some.
fn say_rules(
    table: &SymTable,
    rules: &Rules,
    out: &mut Text,
    mid_line: &mut bool,
) -> Result<(), NoMemory>
    requires { AreRulesKnown table.now (map rule_seen rules.now) }
    ensures { OnOk result (Says (map (rule_line table.now) (map rule_seen rules.now)) mid_line.old out.old mid_line.new out.new) }
{
    'rules: for rule in rules.iter() {
        say_symbol(table, rule.production.name, out, mid_line)?;
    }
    Ok(())
}

fn say_symbol(
    table: &SymTable,
    symbol: Sym,
    out: &mut Text,
    mid_line: &mut bool,
) -> Result<(), NoMemory>
    requires { IsKnown table.now symbol }
    ensures { OnOk result ((out.new ≡ out.old ++ line_text mid_line.old (symbol_text table.now symbol)) × (mid_line.new ≡ false)) }
{
    let text = symbol_text(out.allocator(), table, symbol)?;
    say_line(out, mid_line, text.as_str())
}

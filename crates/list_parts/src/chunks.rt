// The learned productions, chunks among them alone.
ghost use Rattle.std.specs.Prelude.{◌≡◌, [], ◌∷◌, map, OnErr, OnOk};
ghost use Rattle.std.specs.List.{list_any};
ghost use Rattle.defs_match.specs.Rules.{rule_seen};
ghost use Rattle.defs_run.specs.Listing.{is_chunk};
ghost use Rattle.session_parts.specs.Saying.{Says};
ghost use Rattle.soar_settle.specs.Known.{AreRulesKnown};
ghost use Rattle.trace_lines.specs.Saying.{SaysNothing};
ghost use Rattle.list_parts.specs.Lists.{chunk_lines, chunk_texts, is_chunk_rule};

use crate::line::say_line;
use defs_match::Rule;
use rule_shelf::Rules;
use session_parts::say_production;
use soar_rule::Kind;
use soar_sym::{NoMemory, SymTable, Text};

/// Appends all chunks by number, each as its production, one triple a line, or that there are none.
pub fn list_chunks(
    table: &SymTable,
    rules: &Rules,
    out: &mut Text,
    mid_line: &mut bool,
) -> Result<(), NoMemory>
    requires { AreRulesKnown table.now (map rule_seen rules.now) }
    ensures ok { OnOk result (Says (chunk_lines table.now (map rule_seen rules.now)) mid_line.old out.old mid_line.new out.new) }
    ensures err { OnErr result (SaysNothing mid_line.old out.old mid_line.new out.new) }
{
    if has_chunk(rules) {
        list_found(table, rules, out, mid_line)
    } else {
        say_line(out, mid_line, "no chunks")
    }
}

/// Appends the chunks.
fn list_found(
    table: &SymTable,
    rules: &Rules,
    out: &mut Text,
    mid_line: &mut bool,
) -> Result<(), NoMemory>
    requires { AreRulesKnown table.now (map rule_seen rules.now) }
    ensures ok { OnOk result (Says (chunk_texts table.now (map rule_seen rules.now)) mid_line.old out.old mid_line.new out.new) }
    ensures err { OnErr result (SaysNothing mid_line.old out.old mid_line.new out.new) }
{
    let mut said = Text::new(out.allocator());
    let mut mid_said = *mid_line;
    say_chunks(table, rules, &mut said, &mut mid_said)?;
    out.push_str(said.as_str())?;
    *mid_line = mid_said;
    Ok(())
}

/// Whether a rule is a chunk.
fn has_chunk(rules: &Rules) -> bool
    ensures { result ≡ list_any is_chunk_rule (map rule_seen rules.now) }
{
    'rules: for rule in rules.iter() {
        if is_chunk(rule.production.kind) {
            return true;
        }
    }
    false
}

/// Appends the chunks, of which want of memory may leave some.
fn say_chunks(
    table: &SymTable,
    rules: &Rules,
    out: &mut Text,
    mid_line: &mut bool,
) -> Result<(), NoMemory>
    requires { AreRulesKnown table.now (map rule_seen rules.now) }
    ensures { OnOk result (Says (chunk_texts table.now (map rule_seen rules.now)) mid_line.old out.old mid_line.new out.new) }
{
    'rules: for rule in rules.iter() {
        say_chunk(table, rule, out, mid_line)?;
    }
    Ok(())
}

/// Appends a rule that is a chunk, and nothing of another.
fn say_chunk(
    table: &SymTable,
    rule: &Rule,
    out: &mut Text,
    mid_line: &mut bool,
) -> Result<(), NoMemory>
    requires { AreRulesKnown table.now (rule_seen rule.now ∷ []) }
    ensures { OnOk result (Says (chunk_texts table.now (rule_seen rule.now ∷ [])) mid_line.old out.old mid_line.new out.new) }
{
    if is_chunk(rule.production.kind) {
        say_production(table, &rule.production, out, mid_line)
    } else {
        Ok(())
    }
}

fn is_chunk(kind: Kind) -> bool
    ensures { result ≡ is_chunk kind }
{
    match kind {
        Kind::Chunk => true,
        _ => false,
    }
}

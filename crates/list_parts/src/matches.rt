// The instances of one production.
ghost use Rattle.std.specs.Prelude.{◌≡◌, ◌++◌, ◌==◌, false, map, OnErr, OnOk};
ghost use Rattle.std.specs.List.{list_any};
ghost use Rattle.soar_sym.specs.Words.{IsKnown};
ghost use Rattle.defs_match.specs.Rules.{rule_seen};
ghost use Rattle.defs_soar.specs.Agents.{Agent};
ghost use Rattle.defs_soar.specs.Trace.{line_text};
ghost use Rattle.defs_run.specs.Listing.{conflict_lines_of};
ghost use Rattle.session_parts.specs.Saying.{Says};
ghost use Rattle.trace_lines.specs.Saying.{SaysNothing};
ghost use Rattle.list_parts.specs.Matches.{HasMatches, is_of, match_line, matches_of, rule_match_lines};

use crate::line::say_line;
use defs_match::{Instance, Rule};
use soar_show::show_instance;
use soar_sym::{NoMemory, SymTable, Text};

/// Appends the instances of a production out of a conflict set, one a line as `find*block: 3 12`, or that there are no
/// matches.
pub fn list_matches_of(
    table: &SymTable,
    rule: &Rule,
    instances: &[Instance],
    out: &mut Text,
    mid_line: &mut bool,
) -> Result<(), NoMemory>
    requires { IsKnown table.now rule.now.production.name }
    ensures ok { OnOk result (Says (rule_match_lines table.now (rule_seen rule.now) instances.now) mid_line.old out.old mid_line.new out.new) }
    ensures err { OnErr result (SaysNothing mid_line.old out.old mid_line.new out.new) }
    ensures of_agent { (a : Agent) → HasMatches a table.now (rule_seen rule.now) instances.now → rule_match_lines table.now (rule_seen rule.now) instances.now ≡ conflict_lines_of a (rule_seen rule.now) }
{
    if has_match(rule.number, instances) {
        list_found(table, rule, instances, out, mid_line)
    } else {
        say_line(out, mid_line, "no matches")
    }
}

/// Appends the instances of the rule.
fn list_found(
    table: &SymTable,
    rule: &Rule,
    instances: &[Instance],
    out: &mut Text,
    mid_line: &mut bool,
) -> Result<(), NoMemory>
    requires { IsKnown table.now rule.now.production.name }
    ensures ok { OnOk result (Says (map (match_line table.now (rule_seen rule.now)) (matches_of rule.now.number instances.now)) mid_line.old out.old mid_line.new out.new) }
    ensures err { OnErr result (SaysNothing mid_line.old out.old mid_line.new out.new) }
{
    let mut said = Text::new(out.allocator());
    let mut mid_said = *mid_line;
    say_matches(table, rule, instances, &mut said, &mut mid_said)?;
    out.push_str(said.as_str())?;
    *mid_line = mid_said;
    Ok(())
}

/// Whether an instance is of the rule of a number.
fn has_match(number: u64, instances: &[Instance]) -> bool
    ensures { result ≡ list_any (is_of number) instances.now }
{
    instances.iter().any(|i| i.rule == number)
}

/// Appends the instances of the rule, of which want of memory may leave some.
fn say_matches(
    table: &SymTable,
    rule: &Rule,
    instances: &[Instance],
    out: &mut Text,
    mid_line: &mut bool,
) -> Result<(), NoMemory>
    requires { IsKnown table.now rule.now.production.name }
    ensures { OnOk result (Says (map (match_line table.now (rule_seen rule.now)) (matches_of rule.now.number instances.now)) mid_line.old out.old mid_line.new out.new) }
{
    'instances: for instance in instances {
        if instance.rule == rule.number {
            say_match(table, rule, instance, out, mid_line)?;
        }
    }
    Ok(())
}

fn say_match(
    table: &SymTable,
    rule: &Rule,
    instance: &Instance,
    out: &mut Text,
    mid_line: &mut bool,
) -> Result<(), NoMemory>
    requires { IsKnown table.now rule.now.production.name }
    ensures { OnOk result ((out.new ≡ out.old ++ line_text mid_line.old (match_line table.now (rule_seen rule.now) instance.now)) × (mid_line.new ≡ false)) }
{
    let mut text = Text::new(out.allocator());
    show_instance(&mut text, table, instance, rule.production.name)?;
    say_line(out, mid_line, text.as_str())
}

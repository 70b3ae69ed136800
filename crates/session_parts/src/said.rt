// What a session says.
ghost use Rattle.std.specs.Prelude.{◌≡◌, [], ◌++◌, ◌∷◌, if◌then◌else◌, codes, false, map, OnOk};
ghost use Rattle.soar_sym.specs.Words.{IsKnown};
ghost use Rattle.soar_rule.specs.Productions.{production_seen};
ghost use Rattle.soar_rule.specs.Symbols.{AreKnown, symbols_of};
ghost use Rattle.defs_match.specs.Rules.{rule_seen};
ghost use Rattle.soar_wm.specs.WorkingMemory.{elements_of};
ghost use Rattle.defs_read.specs.Printing.{production_text};
ghost use Rattle.defs_soar.specs.Texts.{tagged_text};
ghost use Rattle.defs_soar.specs.Trace.{line_text};
ghost use Rattle.defs_run.specs.Listing.{element_lines, no_matches};
ghost use Rattle.soar_settle.specs.Known.{AreElementsKnown, AreRulesKnown};
ghost use Rattle.session_parts.specs.Saying.{Says, instance_line, match_lines};

use crate::rules::rule_name;
use defs_match::Instance;
use rule_shelf::Rules;
use soar_rule::Production;
use soar_show::{show_element, show_instance, show_production};
use soar_sym::{List, NoMemory, Sym, SymTable, Text};
use soar_wm::{Element, Memory};
use std::alloc::AllocError;

/// Appends a line, on a line of its own.
pub fn say_line(out: &mut Text, mid_line: &mut bool, line: &str) -> Result<(), NoMemory>
    ensures { OnOk result ((out.new ≡ out.old ++ line_text mid_line.old line.now) × (mid_line.new ≡ false)) }
{
    begin_line(out, *mid_line)?;
    out.push_str(line)?;
    out.push('\n')?;
    *mid_line = false;
    Ok(())
}

/// Ends a line that was begun.
fn begin_line(out: &mut Text, mid_line: bool) -> Result<(), AllocError>
    ensures { OnOk result (out.new ≡ out.old ++ (if mid_line then 10 ∷ [] else [])) }
{
    if mid_line { out.push('\n') } else { Ok(()) }
}

/// Says a conflict set, or that there are no matches.
pub fn say_matches(
    table: &SymTable,
    rules: &Rules,
    instances: &List<Instance>,
    out: &mut Text,
    mid_line: &mut bool,
) -> Result<(), NoMemory>
    requires { AreRulesKnown table.now (map rule_seen rules.now) }
    ensures { OnOk result (Says (match_lines table.now (map rule_seen rules.now) instances.now) mid_line.old out.old mid_line.new out.new) }
{
    if instances.is_empty() {
        return say_line(out, mid_line, "no matches");
    }
    say_instances(table, rules, instances.as_slice(), out, mid_line)
}

fn say_instances(
    table: &SymTable,
    rules: &Rules,
    instances: &[Instance],
    out: &mut Text,
    mid_line: &mut bool,
) -> Result<(), NoMemory>
    requires { AreRulesKnown table.now (map rule_seen rules.now) }
    ensures { OnOk result (Says (map (instance_line table.now (map rule_seen rules.now)) instances.now) mid_line.old out.old mid_line.new out.new) }
{
    'instances: for instance in instances {
        say_instance(table, rules, instance, out, mid_line)?;
    }
    Ok(())
}

fn say_instance(
    table: &SymTable,
    rules: &Rules,
    instance: &Instance,
    out: &mut Text,
    mid_line: &mut bool,
) -> Result<(), NoMemory>
    requires { AreRulesKnown table.now (map rule_seen rules.now) }
    ensures { OnOk result ((out.new ≡ out.old ++ line_text mid_line.old (instance_line table.now (map rule_seen rules.now) instance.now)) × (mid_line.new ≡ false)) }
{
    begin_line(out, *mid_line)?;
    show_instance(out, table, instance, rule_name(table, rules, instance.rule))?;
    out.push('\n')?;
    *mid_line = false;
    Ok(())
}

/// Says the lines of a production.
pub fn say_production(
    table: &SymTable,
    production: &Production,
    out: &mut Text,
    mid_line: &mut bool,
) -> Result<(), NoMemory>
    requires { AreKnown table.now (symbols_of (production_seen production.now)) }
    ensures { OnOk result (Says (production_text table.now (production_seen production.now)) mid_line.old out.old mid_line.new out.new) }
{
    begin_line(out, *mid_line)?;
    show_production(out, table, production)?;
    *mid_line = false;
    Ok(())
}

/// Says the elements of an identifier, or that there are none.
pub fn say_elements_of(
    table: &SymTable,
    memory: &Memory,
    id: Sym,
    out: &mut Text,
    mid_line: &mut bool,
) -> Result<(), NoMemory>
    requires { AreElementsKnown table.now memory.now.elements }
    ensures { OnOk result (Says (element_lines table.now (elements_of id memory.now.elements)) mid_line.old out.old mid_line.new out.new) }
{
    let elements = memory.of_id(out.allocator(), id)?;
    say_elements(table, elements.as_slice(), out, mid_line)
}

fn say_elements(
    table: &SymTable,
    elements: &[Element],
    out: &mut Text,
    mid_line: &mut bool,
) -> Result<(), NoMemory>
    requires { AreElementsKnown table.now elements.now }
    ensures { OnOk result (Says (element_lines table.now elements.now) mid_line.old out.old mid_line.new out.new) }
{
    if elements.is_empty() {
        return say_line(out, mid_line, "no elements");
    }
    say_each(table, elements, out, mid_line)
}

fn say_each(
    table: &SymTable,
    elements: &[Element],
    out: &mut Text,
    mid_line: &mut bool,
) -> Result<(), NoMemory>
    requires { AreElementsKnown table.now elements.now }
    ensures { OnOk result (Says (map (tagged_text table.now) elements.now) mid_line.old out.old mid_line.new out.new) }
{
    'elements: for element in elements {
        say_element(table, element, out, mid_line)?;
    }
    Ok(())
}

fn say_element(
    table: &SymTable,
    element: &Element,
    out: &mut Text,
    mid_line: &mut bool,
) -> Result<(), NoMemory>
    requires id { IsKnown table.now element.now.id }
    requires attr { IsKnown table.now element.now.attr }
    requires value { IsKnown table.now element.now.value }
    ensures { OnOk result ((out.new ≡ out.old ++ line_text mid_line.old (tagged_text table.now element.now)) × (mid_line.new ≡ false)) }
{
    begin_line(out, *mid_line)?;
    show_element(out, table, element)?;
    out.push('\n')?;
    *mid_line = false;
    Ok(())
}

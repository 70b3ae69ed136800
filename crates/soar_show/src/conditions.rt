// Conditions as text.
ghost use Rattle.std.specs.Prelude.{◌≡◌, ◌++◌, OnOk};
ghost use Rattle.soar_rule.specs.Conditions.{condition, conditions};
ghost use Rattle.soar_rule.specs.Symbols.{constants_of_condition, constants_of_conditions};
ghost use Rattle.defs_read.specs.PrintingConditions.{condition_lines, condition_text, inside_text};
ghost use Rattle.soar_show.specs.Known.{Knows};
ghost use Rattle.soar_show.specs.Lines.{inner_text};

use crate::fields::push_pattern;
use crate::names::Names;
use soar_rule::Cond;
use soar_sym::Text;
use std::alloc::AllocError;

/// Appends each condition on a line of its own.
pub fn push_conditions(out: &mut Text, names: &Names<'_>, conds: &[Cond]) -> Result<(), AllocError>
    requires { Knows names.now.words (constants_of_conditions (conditions conds.now)) }
    ensures { OnOk result (out.new ≡ out.old ++ inner_text (condition_lines (conditions conds.now) names.now)) }
{
    'conds: for cond in conds {
        out.push_str("    ")?;
        push_condition(out, names, cond)?;
        out.push('\n')?;
    }
    Ok(())
}

#[cycle(conditions)]
fn push_condition(out: &mut Text, names: &Names<'_>, cond: &Cond) -> Result<(), AllocError>
    requires { Knows names.now.words (constants_of_condition (condition cond.now)) }
    ensures { OnOk result (out.new ≡ out.old ++ condition_text (condition cond.now) names.now) }
{
    match cond {
        Cond::Pos(pattern) => push_pattern(out, names, pattern),
        Cond::Neg(pattern) => {
            out.push('-')?;
            push_pattern(out, names, pattern)
        }
        Cond::Conj(inside) => {
            out.push_str("-{")?;
            push_inside(out, names, inside.as_slice())?;
            out.push('}')
        }
    }
}

/// Appends conditions with a blank between one and the next.
#[cycle(conditions)]
fn push_inside(out: &mut Text, names: &Names<'_>, conds: &[Cond]) -> Result<(), AllocError>
    requires { Knows names.now.words (constants_of_conditions (conditions conds.now)) }
    ensures { OnOk result (out.new ≡ out.old ++ inside_text (conditions conds.now) names.now) }
{
    let mut gap = "";
    'conds: for cond in conds {
        out.push_str(gap)?;
        push_condition(out, names, cond)?;
        gap = " ";
    }
    Ok(())
}

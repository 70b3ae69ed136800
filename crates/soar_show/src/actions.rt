// Values, preferences and actions as text.
ghost use Rattle.std.specs.Prelude.{◌≡◌, ◌++◌, flat_map, map, OnOk};
ghost use Rattle.soar_rule.specs.Productions.{action_seen, makes, preference_seen, value_seen, values_of, writes};
ghost use Rattle.soar_rule.specs.Symbols.{constants_of_action, constants_of_referent, constants_of_value, constants_of_values};
ghost use Rattle.soar_rule.specs.Variables.{referent_value};
ghost use Rattle.defs_read.specs.Printing.{action_text, function_text, preference_text, value_text, values_text};
ghost use Rattle.soar_show.specs.Known.{Knows};
ghost use Rattle.soar_show.specs.Lines.{inner_text};

use crate::names::{Names, push_atom};
use soar_rule::{Action, Atom, Func, Pref, Value};
use soar_sym::Text;
use std::alloc::AllocError;

/// Appends each action on a line of its own.
pub fn push_actions(out: &mut Text, names: &Names<'_>, actions: &[Action]) -> Result<(), AllocError>
    requires { Knows names.now.words (flat_map constants_of_action (map action_seen actions.now)) }
    ensures { OnOk result (out.new ≡ out.old ++ inner_text (map (action_text names.now) (map action_seen actions.now))) }
{
    'actions: for action in actions {
        out.push_str("    ")?;
        push_action(out, names, action)?;
        out.push('\n')?;
    }
    Ok(())
}

fn push_action(out: &mut Text, names: &Names<'_>, action: &Action) -> Result<(), AllocError>
    requires { Knows names.now.words (constants_of_action (action_seen action.now)) }
    ensures { OnOk result (out.new ≡ out.old ++ action_text names.now (action_seen action.now)) }
{
    match action {
        Action::Make {
            id,
            attr,
            value,
            pref,
        } => push_make(out, names, *id, attr, value, pref),
        Action::Write(values) => push_write(out, names, values.as_slice()),
        Action::Halt => out.push_str("(halt)"),
    }
}

/// Appends an action that makes a preference.
fn push_make(
    out: &mut Text,
    names: &Names<'_>,
    id: Atom,
    attr: &Value,
    value: &Value,
    pref: &Pref,
) -> Result<(), AllocError>
    requires { Knows names.now.words (constants_of_action (makes id (value_seen attr.now) (value_seen value.now) (preference_seen pref.now))) }
    ensures { OnOk result (out.new ≡ out.old ++ action_text names.now (makes id (value_seen attr.now) (value_seen value.now) (preference_seen pref.now))) }
{
    out.push('(')?;
    push_atom(out, names, id)?;
    out.push_str(" ^")?;
    push_value(out, names, attr)?;
    out.push(' ')?;
    push_value(out, names, value)?;
    out.push(' ')?;
    push_preference(out, names, pref)?;
    out.push(')')
}

fn push_write(out: &mut Text, names: &Names<'_>, values: &[Value]) -> Result<(), AllocError>
    requires { Knows names.now.words (constants_of_action (writes (map value_seen values.now))) }
    ensures { OnOk result (out.new ≡ out.old ++ action_text names.now (writes (map value_seen values.now))) }
{
    out.push_str("(write")?;
    push_values(out, names, values)?;
    out.push(')')
}

/// Appends the sign of a preference, and its referent where it has one.
fn push_preference(out: &mut Text, names: &Names<'_>, pref: &Pref) -> Result<(), AllocError>
    requires { Knows names.now.words (constants_of_referent (referent_value (preference_seen pref.now))) }
    ensures { OnOk result (out.new ≡ out.old ++ preference_text names.now (preference_seen pref.now)) }
{
    match pref {
        Pref::Accept => out.push('+'),
        Pref::Reject => out.push('-'),
        Pref::Require => out.push('!'),
        Pref::Prohibit => out.push('~'),
        Pref::Best => out.push('>'),
        Pref::Worst => out.push('<'),
        Pref::Indifferent => out.push('='),
        Pref::Better(referent) => push_compared(out, names, "> ", referent),
        Pref::Worse(referent) => push_compared(out, names, "< ", referent),
        Pref::IndifferentTo(referent) => push_compared(out, names, "= ", referent),
    }
}

/// Appends a sign and a referent.
fn push_compared(
    out: &mut Text,
    names: &Names<'_>,
    sign: &str,
    referent: &Value,
) -> Result<(), AllocError>
    requires { Knows names.now.words (constants_of_value (value_seen referent.now)) }
    ensures { OnOk result (out.new ≡ out.old ++ (sign.now ++ value_text (value_seen referent.now) names.now)) }
{
    out.push_str(sign)?;
    push_value(out, names, referent)
}

#[cycle(values)]
fn push_value(out: &mut Text, names: &Names<'_>, value: &Value) -> Result<(), AllocError>
    requires { Knows names.now.words (constants_of_value (value_seen value.now)) }
    ensures { OnOk result (out.new ≡ out.old ++ value_text (value_seen value.now) names.now) }
{
    match value {
        Value::Atom(atom) => push_atom(out, names, *atom),
        Value::Call(func, values) => {
            out.push('(')?;
            out.push_str(function_name(*func))?;
            push_values(out, names, values.as_slice())?;
            out.push(')')
        }
    }
}

/// Appends each value behind a blank.
#[cycle(values)]
fn push_values(out: &mut Text, names: &Names<'_>, values: &[Value]) -> Result<(), AllocError>
    requires { Knows names.now.words (constants_of_values (values_of (map value_seen values.now))) }
    ensures { OnOk result (out.new ≡ out.old ++ values_text (values_of (map value_seen values.now)) names.now) }
{
    'values: for value in values {
        out.push(' ')?;
        push_value(out, names, value)?;
    }
    Ok(())
}

fn function_name(func: Func) -> &'static str
    ensures { result.now ≡ function_text func }
{
    match func {
        Func::Plus => "+",
        Func::Times => "*",
        Func::Minus => "-",
        Func::Div => "div",
        Func::Mod => "mod",
        Func::Abs => "abs",
        Func::Min => "min",
        Func::Max => "max",
        Func::Concat => "concat",
        Func::IfEq => "ifeq",
        Func::StrLen => "strlen",
        Func::Crlf => "crlf",
    }
}

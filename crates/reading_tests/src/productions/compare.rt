// Whether conditions and actions are those of rows.
use super::rows::digit;
use soar_rule::{Action, Atom, Cond, Field, Pattern, Pref, Relation, Test, Value};
use soar_sym::Sym;

pub fn are_rows(conds: &[Cond], rows: &[[u8; 4]]) -> bool {
    conds.len() == rows.len() && conds.iter().zip(rows).all(|(cond, row)| is_row(cond, *row))
}

pub fn is_row(cond: &Cond, row: [u8; 4]) -> bool {
    let [sign, _, _, _] = row;
    match cond {
        Cond::Pos(pattern) => {
            sign != b'-' && pattern.state == (sign == b'*') && is_pattern(pattern, row)
        }
        Cond::Neg(pattern) => sign == b'-' && is_pattern(pattern, row),
        Cond::Conj(_) => false,
    }
}

fn is_pattern(pattern: &Pattern, row: [u8; 4]) -> bool {
    let [sign, id, attr, value] = row;
    is_variable(&pattern.id, digit(id), false)
        && is_word(&pattern.attr, digit(attr))
        && is_variable(&pattern.value, digit(value), sign == b'!')
}

/// Whether a field is this variable, or differs from it.
fn is_variable(field: &Field, number: u32, differs: bool) -> bool {
    match field.tests.as_slice() {
        [Test::Plain(Atom::Var(variable))] => !differs && *variable == number,
        [Test::Rel(Relation::Differ, Atom::Var(variable))] => differs && *variable == number,
        _ => false,
    }
}

fn is_word(field: &Field, number: u32) -> bool {
    match field.tests.as_slice() {
        [Test::Plain(Atom::Const(Sym::Word(word)))] => *word == number,
        _ => false,
    }
}

pub fn are_actions(actions: &[Action], rows: &[[u8; 5]]) -> bool {
    actions.len() == rows.len()
        && actions
            .iter()
            .zip(rows)
            .all(|(action, row)| is_action(action, *row))
}

/// Whether an action is that of a row that accepts a variable.
fn is_action(action: &Action, row: [u8; 5]) -> bool {
    let [id, attr, _, value, _] = row;
    match action {
        Action::Make {
            id: Atom::Var(made_id),
            attr: Value::Atom(Atom::Const(Sym::Word(made_attr))),
            value: Value::Atom(Atom::Var(made_value)),
            pref: Pref::Accept,
        } => *made_id == digit(id) && *made_attr == digit(attr) && *made_value == digit(value),
        _ => false,
    }
}

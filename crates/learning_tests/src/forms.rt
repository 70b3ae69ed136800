use carried_tests::PlacedTest;
use chunk_forms::{conditions_of, form_of};
use defs_soar::{PrefKind, Wish};
use soar_rule::{Atom, Cond, Field, Pattern, Relation, Test};
use soar_sym::architecture::{NAME, OPERATOR};
use soar_sym::{List, NoMemory, Sym, Text};
use soar_wm::Element;
use std::alloc::Global;
use std::test::Fail;

/// The state S1.
const STATE: Sym = Sym::Ident {
    letter: b'S',
    number: 1,
};

/// A ground's value, O3.
const KNOWN: Sym = Sym::Ident {
    letter: b'O',
    number: 3,
};

/// What the explanation made, O7.
const NEW: Sym = Sym::Ident {
    letter: b'O',
    number: 7,
};

/// (S1 ^operator O3) and (O3 ^name 4).
const ELEMENTS: [Element; 2] = [
    Element {
        tag: 6,
        id: STATE,
        attr: OPERATOR,
        value: KNOWN,
        accept: false,
        of_state: true,
    },
    Element {
        tag: 8,
        id: KNOWN,
        attr: NAME,
        value: Sym::Int(4),
        accept: false,
        of_state: false,
    },
];

/// O3 differs from S1, at the identifier of the second condition.
const PLACED: [PlacedTest; 1] = [PlacedTest {
    at: 3,
    relation: Relation::Differ,
    right: STATE,
}];

/// (S1 ^operator O7 > O3).
const RESULTS: [Wish; 1] = [Wish {
    id: STATE,
    attr: OPERATOR,
    value: NEW,
    kind: PrefKind::Better,
    referent: Some(KNOWN),
}];

fn field(alloc: Global, atom: Atom) -> Result<Field, NoMemory> {
    let mut tests = List::new(alloc);
    tests.push(Test::Plain(atom))?;
    Ok(Field { tests })
}

/// -(S1 ^name <own>).
fn negation(alloc: Global) -> Result<Cond, NoMemory> {
    let id = field(alloc, Atom::Const(STATE))?;
    let attr = field(alloc, Atom::Const(NAME))?;
    let value = field(alloc, Atom::Var(0))?;
    Ok(Cond::Neg(Pattern {
        state: false,
        id,
        attr,
        value,
        accept: false,
    }))
}

/// The conditions of the two elements, the test and the negation.
fn conditions(alloc: Global) -> Result<List<Cond>, NoMemory> {
    let mut negations = List::new(alloc);
    negations.push(negation(alloc)?)?;
    conditions_of(alloc, &ELEMENTS, &PLACED, negations.as_slice())
}

fn are_named(names: &[Text], texts: &[&str]) -> bool {
    if names.len() != texts.len() {
        return false;
    }
    for (name, text) in names.iter().zip(texts) {
        if name.as_str() != *text {
            return false;
        }
    }
    true
}

/// How many tests a field has, and the variable of its last one, 9 for a symbol.
fn told(field: &Field) -> (usize, u32) {
    match field.tests.as_slice().last() {
        Some(Test::Plain(Atom::Var(variable))) => (field.tests.len(), *variable),
        Some(Test::Rel(_, Atom::Var(variable))) => (field.tests.len(), *variable),
        _ => (field.tests.len(), 9),
    }
}

fn pattern(cond: &Cond) -> Option<&Pattern> {
    match cond {
        Cond::Pos(pattern) => Some(pattern),
        Cond::Neg(pattern) => Some(pattern),
        Cond::Conj(_) => None,
    }
}

/// Whether the identifiers and values of the conditions are these.
fn are_told(conds: &[Cond], rows: &[((usize, u32), (usize, u32))]) -> bool {
    if conds.len() != rows.len() {
        return false;
    }
    for (cond, row) in conds.iter().zip(rows) {
        match pattern(cond) {
            Some(pattern) => {
                if told(&pattern.id) != row.0 || told(&pattern.value) != row.1 {
                    return false;
                }
            }
            None => return false,
        }
    }
    true
}

#[test]
fn identifiers_are_variables_in_the_general_form(rt: HostRuntime) -> Result<(), Fail> {
    let conds = conditions(rt.alloc())?;
    let form = form_of(rt.alloc(), true, conds.as_slice(), &RESULTS)?;
    let rows = [((1, 0), (1, 1)), ((2, 0), (1, 9)), ((1, 0), (1, 2))];
    assert!(rt;
        are_named(form.names.as_slice(), &["s1", "o1", "x1", "o2"])
            && are_told(form.conds.as_slice(), &rows)
            && form.actions.len() == 1
    );
    Ok(())
}

#[test]
fn only_negations_have_variables_in_the_literal_form(rt: HostRuntime) -> Result<(), Fail> {
    let conds = conditions(rt.alloc())?;
    let form = form_of(rt.alloc(), false, conds.as_slice(), &RESULTS)?;
    let rows = [((1, 9), (1, 9)), ((2, 9), (1, 9)), ((1, 9), (1, 0))];
    assert!(rt;
        are_named(form.names.as_slice(), &["x1"])
            && are_told(form.conds.as_slice(), &rows)
            && form.actions.len() == 1
    );
    Ok(())
}

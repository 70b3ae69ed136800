ghost use Rattle.std.specs.Prelude.{◌≡◌, IfOk};
ghost use Rattle.chunk_make.specs.Known.{IsChainKnown};
ghost use Rattle.defs_soar.specs.History.{chain_seen};
ghost use Rattle.soar_sym.specs.Words.{architecture, IsKnown};

use chunk_make::candidate;
use defs_soar::{Candidate, Cause, Chain, PrefKind, Wish};
use soar_rule::Production;
use soar_sym::architecture::{NAME, OPERATOR};
use soar_sym::{List, NoMemory, Sym, SymTable};
use soar_wm::Element;
use std::alloc::Global;
use std::test::Fail;

/// The state S1.
const STATE: Sym = Sym::Ident {
    letter: b'S',
    number: 1,
};

/// A ground's value, O3.
const KNOWN: Sym = Sym::Ident {
    letter: b'O',
    number: 3,
};

/// An identifier of no ground, O7.
const UNKNOWN: Sym = Sym::Ident {
    letter: b'O',
    number: 7,
};

/// (S1 ^operator O3).
const GROUND: Element = Element {
    tag: 6,
    id: STATE,
    attr: OPERATOR,
    value: KNOWN,
    accept: false,
    of_state: true,
};

/// (S1 ^name value +), from (S1 ^operator O3).
fn explanation(alloc: Global, value: Sym) -> Result<Chain, NoMemory>
    requires { IsKnown architecture value }
    ensures { IfOk result (λ chain. IsChainKnown architecture (chain_seen chain)) }
{
    let result = Wish {
        id: STATE,
        attr: NAME,
        value,
        kind: PrefKind::Accept,
        referent: None,
    };
    let grounds = List::from_slice(alloc, &[GROUND])?;
    let results = List::from_slice(alloc, &[result])?;
    Ok(Chain {
        grounds,
        steps: List::new(alloc),
        results,
    })
}

/// The candidate of that explanation, and how many words there are then.
fn candidate_of(alloc: Global, value: Sym) -> Result<(Candidate, u32), NoMemory>
    requires { IsKnown architecture value }
{
    let chain = explanation(alloc, value)?;
    let mut table = SymTable::new(alloc)?;
    match candidate(alloc, &mut table, &chain, 1) {
        Ok(found) => Ok((found, table.word_count())),
        Err(_) => Err(NoMemory),
    }
}

/// Whether there is a production with so many variables.
fn has_variables(production: &Option<Production>, count: usize) -> bool {
    match production {
        Some(production) => production.vars.len() == count,
        None => false,
    }
}

#[test]
fn both_forms_are_there_where_each_identifier_has_a_variable(rt: HostRuntime) -> Result<(), Fail> {
    let (found, words) = candidate_of(rt.alloc(), KNOWN)?;
    assert!(rt;
        has_variables(&found.general, 2)
            && has_variables(&found.literal, 0)
            && found.cause.is_none()
            && found.ungrounded.is_none()
            && words == 26
    );
    Ok(())
}

#[test]
fn an_identifier_without_a_variable_leaves_the_literal_form(rt: HostRuntime) -> Result<(), Fail> {
    let (found, words) = candidate_of(rt.alloc(), UNKNOWN)?;
    assert!(rt;
        found.general.is_none()
            && has_variables(&found.literal, 0)
            && found.cause == Some(Cause::Ungrounded(UNKNOWN))
            && found.ungrounded == Some(UNKNOWN)
            && words == 24
    );
    Ok(())
}

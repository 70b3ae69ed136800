ghost use Rattle.std.specs.Prelude.{◌≡◌, ◌<◌, length, IfOk};
ghost use Rattle.soar_rule.specs.Symbols.{AreKnown};
ghost use Rattle.defs_soar.specs.History.{chain_seen};
ghost use Rattle.chain_texts.specs.Shown.{shown_symbols};

use chain_texts::show_chain;
use defs_match::{Instance, Rule};
use defs_soar::{Chain, Firing, PrefKind, Step, Wish};
use soar_rule::{Kind, Production, Support};
use soar_sym::architecture::{IMPASSE, ITEM, NAME, OPERATOR, TIE};
use soar_sym::{List, NoMemory, Sym, SymTable, Text};
use soar_wm::Element;
use std::alloc::Global;
use std::test::Fail;

const S1: Sym = Sym::Ident {
    letter: b'S',
    number: 1,
};

const S2: Sym = Sym::Ident {
    letter: b'S',
    number: 2,
};

const O1: Sym = Sym::Ident {
    letter: b'O',
    number: 1,
};

const GROUND: Element = Element {
    tag: 8,
    id: O1,
    attr: NAME,
    value: Sym::Int(2),
    accept: false,
    of_state: false,
};

const MARKED: Element = Element {
    tag: 10,
    id: S1,
    attr: OPERATOR,
    value: O1,
    accept: true,
    of_state: true,
};

const IMPASSE_OF_S2: Element = Element {
    tag: 14,
    id: S2,
    attr: IMPASSE,
    value: TIE,
    accept: false,
    of_state: true,
};

const ITEM_OF_S2: Element = Element {
    tag: 15,
    id: S2,
    attr: ITEM,
    value: O1,
    accept: false,
    of_state: true,
};

const OPERATOR_OF_S2: Element = Element {
    tag: 16,
    id: S2,
    attr: OPERATOR,
    value: O1,
    accept: false,
    of_state: true,
};

const RESULT: Wish = Wish {
    id: S1,
    attr: OPERATOR,
    value: O1,
    kind: PrefKind::Numeric,
    referent: Some(Sym::Int(2)),
};

fn rule(alloc: Global) -> Result<Rule, NoMemory> {
    let production = Production {
        name: NAME,
        doc: None,
        kind: Kind::User,
        support: Support::Unset,
        vars: List::new(alloc),
        conds: List::new(alloc),
        actions: List::new(alloc),
    };
    Rule::new(alloc, 1, production)
}

fn firing(alloc: Global, name: Sym, made: &[Wish]) -> Result<Firing, NoMemory>
    ensures name { IfOk result (λ f. f.name ≡ name) }
    ensures made { IfOk result (λ f. f.made ≡ made.now) }
{
    Ok(Firing {
        number: 3,
        name,
        rule: rule(alloc)?,
        depth: 2,
        instance: Instance {
            rule: 1,
            tags: List::from_slice(alloc, &[14, 15, 8])?,
            binds: List::new(alloc),
        },
        goals: List::new(alloc),
        used: List::new(alloc),
        made: List::from_slice(alloc, made)?,
    })
}

/// An explanation with a step of each kind.
fn explanation(alloc: Global, table: &SymTable) -> Result<Chain, NoMemory>
    requires { 18 < length table.now }
    ensures { IfOk result (λ c. AreKnown table.now (shown_symbols (chain_seen c))) }
{
    let grounds = List::from_slice(alloc, &[GROUND, MARKED])?;
    let results = List::from_slice(alloc, &[RESULT])?;
    let mut steps = List::new(alloc);
    steps.push(Step::Architecture(IMPASSE_OF_S2))?;
    steps.push(Step::Item(ITEM_OF_S2, 10))?;
    steps.push(Step::Select(OPERATOR_OF_S2, 12))?;
    steps.push(Step::Fire(firing(alloc, NAME, &[RESULT, RESULT])?))?;
    Ok(Chain {
        grounds,
        steps,
        results,
    })
}

const LINES: &str = "x
explain name
ground 8: (O1 ^name 2)
ground 10: (S1 ^operator O1 +)
architecture 14: (S2 ^impasse tie)
item 15: (S2 ^item O1) by 10
select 16: (S2 ^operator O1) by 12
fire 3 name: 14 15 8
  (S1 ^operator O1 = 2)
  (S1 ^operator O1 = 2)
result (S1 ^operator O1 = 2)
end
";

#[test]
fn an_explanation_is_written_line_by_line(rt: HostRuntime) -> Result<(), Fail> {
    let alloc = rt.alloc();
    let table = SymTable::new(alloc)?;
    let chain = explanation(alloc, &table)?;
    let mut out = Text::from_str(alloc, "x\n")?;
    show_chain(&mut out, &table, &chain, NAME)?;
    assert!(rt; out.as_str() == LINES, "{}", out.as_str());
    Ok(())
}

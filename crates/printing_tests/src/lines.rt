ghost use Rattle.std.specs.Prelude.{◌<◌, length, IfOk, IfSome, IsTrue};
ghost use Rattle.std.specs.List.{All};
ghost use Rattle.soar_sym.specs.Words.{IsKnown};
ghost use Rattle.trace_lines.specs.Names.{IsValueKnown};

use defs_soar::Impasse;
use soar_sym::architecture::{IO, NAME, NIL, OPERATOR, T};
use soar_sym::{NoMemory, Sym, SymTable, Text, Triple};
use soar_wm::{Element, Memory};
use std::alloc::Global;
use std::test::Fail;
use trace_lines::{
    NewGoal, Phase, Selected, operator_name, say_cut, say_goal_limit, say_halt, say_outputs,
    say_selection, say_substate,
};

const S1: Sym = Sym::Ident {
    letter: b'S',
    number: 1,
};

const S2: Sym = Sym::Ident {
    letter: b'S',
    number: 2,
};

const S3: Sym = Sym::Ident {
    letter: b'S',
    number: 3,
};

const O1: Sym = Sym::Ident {
    letter: b'O',
    number: 1,
};

/// O1 with the names `t` and `nil`, and with `io` where the mark is.
fn operators(alloc: Global) -> Result<Memory, NoMemory> {
    let mut memory = Memory::new(alloc, 3, 5)?;
    for (value, accept) in [(T, false), (IO, true), (NIL, false)] {
        let triple = Triple {
            id: O1,
            attr: NAME,
            value,
            accept,
        };
        if memory.add(triple, false).is_err() {
            return Err(NoMemory);
        }
    }
    Ok(memory)
}

fn are_known(table: &SymTable, elements: &[Element]) -> bool
    ensures { IsTrue result → All (IsValueKnown table.now) elements.now }
{
    elements.iter().all(|e| is_known(table, e.value))
}

fn is_known(table: &SymTable, symbol: Sym) -> bool
    ensures { IsTrue result → IsKnown table.now symbol }
{
    match symbol {
        Sym::Word(word) => word < table.word_count(),
        Sym::Int(_) => true,
        Sym::Ident { .. } => false,
    }
}

/// The name of O1.
fn name(alloc: Global, table: &SymTable) -> Result<Option<Sym>, NoMemory>
    ensures { IfOk result (λ name. IfSome name (IsKnown table.now)) }
{
    let memory = operators(alloc)?;
    let elements = memory.all(alloc)?;
    if !are_known(table, elements.as_slice()) {
        return Ok(None);
    }
    operator_name(alloc, table, &memory, O1)
}

fn say_selections(table: &SymTable, out: &mut Text, mid_line: &mut bool) -> Result<(), NoMemory> {
    let unnamed = Selected {
        cycle: 1,
        below: 0,
        operator: O1,
        name: None,
    };
    let named = Selected {
        cycle: 20,
        below: 2,
        operator: O1,
        name: name(out.allocator(), table)?,
    };
    say_selection(table, &unnamed, out, mid_line)?;
    say_selection(table, &named, out, mid_line)
}

fn say_goals(table: &SymTable, out: &mut Text, mid_line: &mut bool) -> Result<(), NoMemory> {
    let second = NewGoal {
        cycle: 21,
        below: 1,
        goal: S2,
        impasse: Impasse::Tie,
    };
    let third = NewGoal {
        cycle: 22,
        below: 2,
        goal: S3,
        impasse: Impasse::OperatorNoChange,
    };
    say_substate(table, &second, out, mid_line)?;
    say_substate(table, &third, out, mid_line)?;
    say_goal_limit(out, mid_line)
}

fn say_phases(out: &mut Text, mid_line: &mut bool) -> Result<(), NoMemory> {
    say_cut(Phase::Proposal, out, mid_line)?;
    say_cut(Phase::Application, out, mid_line)
}

fn say_links(table: &SymTable, out: &mut Text, mid_line: &mut bool) -> Result<(), NoMemory>
    requires { 8 < length table.now }
{
    let gone = Triple {
        id: S1,
        attr: OPERATOR,
        value: O1,
        accept: true,
    };
    let new = Triple {
        id: S1,
        attr: NAME,
        value: Sym::Int(-5),
        accept: false,
    };
    say_outputs(table, &[gone], &[new], out, mid_line)
}

fn trace(alloc: Global) -> Result<Text, NoMemory> {
    let table = SymTable::new(alloc)?;
    let mut out = Text::from_str(alloc, "x")?;
    let mut mid_line = true;
    say_selections(&table, &mut out, &mut mid_line)?;
    say_goals(&table, &mut out, &mut mid_line)?;
    say_phases(&mut out, &mut mid_line)?;
    say_links(&table, &mut out, &mut mid_line)?;
    say_halt(&mut out, &mut mid_line)?;
    Ok(out)
}

const LINES: &str = "x
1: O: O1
20:     O: O1 (nil)
21:   ==>S: S2 (tie)
22:     ==>S: S3 (operator no-change)
goal depth 100
cut proposal
cut application
out - (S1 ^operator O1 +)
out + (S1 ^name -5)
halt
";

#[test]
fn each_line_is_written(rt: HostRuntime) -> Result<(), Fail> {
    let out = trace(rt.alloc())?;
    assert!(rt; out.as_str() == LINES, "{}", out.as_str());
    Ok(())
}

ghost use Rattle.std.specs.Prelude.{◌≡◌, ◌<◌, length, IfOk};
ghost use Rattle.trace_laws.specs.Events.{IsLearningKnown, IsSignKnown};
ghost use Rattle.trace_details.specs.Lessons.{lesson_seen};

use defs_match::Instance;
use defs_soar::{Cause, DropCause, Dropped, PrefKind, Wish};
use soar_sym::architecture::{NAME, NIL, OPERATOR};
use soar_sym::{List, NoMemory, Sym, SymTable, Text};
use soar_wm::Element;
use std::alloc::Global;
use std::test::Fail;
use trace_details::{
    CyclePart, HeldBy, LearnedFiring, Lesson, say_drop, say_firing, say_gone, say_lesson, say_new,
    say_part, say_removal, say_retraction, say_wish,
};

const S1: Sym = Sym::Ident {
    letter: b'S',
    number: 1,
};

const S2: Sym = Sym::Ident {
    letter: b'S',
    number: 2,
};

const O1: Sym = Sym::Ident {
    letter: b'O',
    number: 1,
};

const O2: Sym = Sym::Ident {
    letter: b'O',
    number: 2,
};

const GONE: Element = Element {
    tag: 6,
    id: S1,
    attr: OPERATOR,
    value: O1,
    accept: true,
    of_state: true,
};

const NEW: Element = Element {
    tag: 4_294_967_295,
    id: S1,
    attr: NAME,
    value: Sym::Int(-5),
    accept: false,
    of_state: true,
};

fn say_parts(watch: u8, out: &mut Text, mid_line: &mut bool) -> Result<(), NoMemory> {
    say_part(watch, CyclePart::Input, out, mid_line)?;
    say_part(watch, CyclePart::Proposal, out, mid_line)?;
    say_part(watch, CyclePart::Decision, out, mid_line)?;
    say_part(watch, CyclePart::Application, out, mid_line)?;
    say_part(watch, CyclePart::Output, out, mid_line)
}

fn say_firings(
    watch: u8,
    table: &SymTable,
    out: &mut Text,
    mid_line: &mut bool,
) -> Result<(), NoMemory>
    requires { 8 < length table.now }
{
    let alloc = out.allocator();
    let instance = Instance {
        rule: 1,
        tags: List::from_slice(alloc, &[3, 12])?,
        binds: List::new(alloc),
    };
    say_retraction(watch, table, 2, NIL, &instance, out, mid_line)?;
    say_firing(watch, table, 20, NAME, &instance, out, mid_line)
}

fn learned(alloc: Global, number: u64, name: Sym) -> Result<LearnedFiring, NoMemory>
    ensures { IfOk result (λ f. f.name ≡ name) }
{
    Ok(LearnedFiring {
        number,
        name,
        explained: 20,
        tags: List::from_slice(alloc, &[11, 9])?,
    })
}

fn say(
    watch: u8,
    table: &SymTable,
    lesson: Lesson,
    out: &mut Text,
    mid_line: &mut bool,
) -> Result<(), NoMemory>
    requires { IsLearningKnown table.now (lesson_seen lesson) }
{
    say_lesson(watch, table, &lesson, out, mid_line)
}

fn say_learned(
    watch: u8,
    table: &SymTable,
    out: &mut Text,
    mid_line: &mut bool,
) -> Result<(), NoMemory>
    requires { 8 < length table.now }
{
    let chunk = learned(out.allocator(), 21, NAME)?;
    say(watch, table, Lesson::Chunk(chunk), out, mid_line)?;
    let justification = learned(out.allocator(), 22, NIL)?;
    say(
        watch,
        table,
        Lesson::Justification(justification, Cause::LocalNegation(4)),
        out,
        mid_line,
    )
}

fn say_unlearned(
    watch: u8,
    table: &SymTable,
    out: &mut Text,
    mid_line: &mut bool,
) -> Result<(), NoMemory>
    requires { 8 < length table.now }
{
    let (name, explained, place, tag) = (NAME, 20, 2, 10);
    say(watch, table, Lesson::NoGrounds { explained }, out, mid_line)?;
    say(
        watch,
        table,
        Lesson::Reused { name, explained },
        out,
        mid_line,
    )?;
    say(watch, table, Lesson::Lost { explained, tag }, out, mid_line)?;
    say(
        watch,
        table,
        Lesson::Blocked {
            explained,
            place,
            tag,
        },
        out,
        mid_line,
    )
}

fn say_sign(
    watch: u8,
    table: &SymTable,
    kind: PrefKind,
    referent: Option<Sym>,
    held_by: HeldBy,
    out: &mut Text,
    mid_line: &mut bool,
) -> Result<(), NoMemory>
    requires words { 8 < length table.now }
    requires sign { IsSignKnown table.now kind referent }
{
    let wish = Wish {
        id: S1,
        attr: OPERATOR,
        value: O1,
        kind,
        referent,
    };
    say_wish(watch, table, &wish, held_by, out, mid_line)
}

fn say_wishes(
    watch: u8,
    table: &SymTable,
    out: &mut Text,
    mid_line: &mut bool,
) -> Result<(), NoMemory>
    requires { 8 < length table.now }
{
    let (other, number) = (Some(O2), Some(Sym::Int(-5)));
    say_sign(
        watch,
        table,
        PrefKind::Accept,
        None,
        HeldBy::Instance,
        out,
        mid_line,
    )?;
    say_sign(
        watch,
        table,
        PrefKind::Better,
        other,
        HeldBy::Operator,
        out,
        mid_line,
    )?;
    say_sign(
        watch,
        table,
        PrefKind::Worst,
        other,
        HeldBy::Learned,
        out,
        mid_line,
    )?;
    say_sign(
        watch,
        table,
        PrefKind::Numeric,
        number,
        HeldBy::Instance,
        out,
        mid_line,
    )
}

fn say_drops(watch: u8, out: &mut Text, mid_line: &mut bool) -> Result<(), NoMemory> {
    let first = Dropped {
        action: 1,
        cause: DropCause::ZeroDivisor,
    };
    let last = Dropped {
        action: 12,
        cause: DropCause::NotAnIdentifier,
    };
    say_drop(watch, first, out, mid_line)?;
    say_drop(watch, last, out, mid_line)
}

fn say_elements(
    watch: u8,
    table: &SymTable,
    out: &mut Text,
    mid_line: &mut bool,
) -> Result<(), NoMemory>
    requires { 8 < length table.now }
{
    say_gone(watch, table, &GONE, out, mid_line)?;
    say_new(watch, table, &NEW, out, mid_line)
}

/// One line of each kind at least, behind text that ended in the middle of a line.
fn trace(alloc: Global, watch: u8) -> Result<Text, NoMemory> {
    let table = SymTable::new(alloc)?;
    let mut out = Text::from_str(alloc, "x")?;
    let mut mid_line = true;
    say_parts(watch, &mut out, &mut mid_line)?;
    say_removal(watch, &table, S2, &mut out, &mut mid_line)?;
    say_firings(watch, &table, &mut out, &mut mid_line)?;
    say_learned(watch, &table, &mut out, &mut mid_line)?;
    say_unlearned(watch, &table, &mut out, &mut mid_line)?;
    say_wishes(watch, &table, &mut out, &mut mid_line)?;
    say_drops(watch, &mut out, &mut mid_line)?;
    say_elements(watch, &table, &mut out, &mut mid_line)?;
    Ok(out)
}

fn trace_is(alloc: Global, watch: u8, lines: &str) -> Result<bool, NoMemory> {
    let out = trace(alloc, watch)?;
    Ok(out.as_str() == lines)
}

const ALL: &str = "x
-- input
-- proposal
-- decision
-- application
-- output
remove S2
retract 2 nil: 3 12
fire 20 name: 3 12
learn 21 name from 20: 11 9
justify 22 nil from 20: 11 9 (local negation in 4)
justify from 20 (no grounds)
reuse name from 20
stale 20 lost 10
stale 20 blocked 2 by 10
  (S1 ^operator O1 +) i
  (S1 ^operator O1 > O2) o
  (S1 ^operator O1 <) r
  (S1 ^operator O1 = -5) i
  drop 1 zero divisor
  drop 12 not an identifier
- 6: (S1 ^operator O1 +)
+ 4294967295: (S1 ^name -5)
";

const AT_FOUR: &str = "x
-- input
-- proposal
-- decision
-- application
-- output
remove S2
retract 2 nil: 3 12
fire 20 name: 3 12
learn 21 name from 20: 11 9
justify 22 nil from 20: 11 9 (local negation in 4)
justify from 20 (no grounds)
reuse name from 20
stale 20 lost 10
stale 20 blocked 2 by 10
- 6: (S1 ^operator O1 +)
+ 4294967295: (S1 ^name -5)
";

const AT_THREE: &str = "x
-- input
-- proposal
-- decision
-- application
-- output
remove S2
retract 2 nil: 3 12
fire 20 name: 3 12
learn 21 name from 20: 11 9
justify 22 nil from 20: 11 9 (local negation in 4)
justify from 20 (no grounds)
reuse name from 20
stale 20 lost 10
stale 20 blocked 2 by 10
";

const AT_TWO: &str = "x
-- input
-- proposal
-- decision
-- application
-- output
remove S2
";

#[test]
fn each_line_is_written(rt: HostRuntime) -> Result<(), Fail> {
    let out = trace(rt.alloc(), 5)?;
    assert!(rt; out.as_str() == ALL, "{}", out.as_str());
    Ok(())
}

#[test]
fn lines_of_higher_levels_are_left_out(rt: HostRuntime) -> Result<(), Fail> {
    let alloc = rt.alloc();
    assert!(rt;
        trace_is(alloc, 4, AT_FOUR)?
            && trace_is(alloc, 3, AT_THREE)?
            && trace_is(alloc, 2, AT_TWO)?
            && trace_is(alloc, 1, "x")?
    );
    Ok(())
}

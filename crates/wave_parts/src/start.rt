// The agent at the start.
ghost use Rattle.std.specs.Prelude.{◌≡◌, ◌<◌, ◌-◌, ◌^◌, false, [], None, length, IfOk, OnOk};
ghost use Rattle.defs_soar.specs.Start.{first_agent, first_elements, first_letters, first_settings};
ghost use Rattle.settle_changes.specs.Rest.{IsAtRest};
ghost use Rattle.soar_wm.specs.WorkingMemory.{tag_of, with_triple};
ghost use Rattle.soar_sym.specs.Words.{architecture};
ghost use Rattle.wave_parts.specs.Lawful.{IsOfLawful};
ghost use Rattle.wave_parts.specs.Openings.{IsBare, IsOpening, top_goals};
ghost use Rattle.wave_parts.specs.Seen.{IsSound};
ghost use Rattle.wave_parts.specs.Settings.{settings_seen};
ghost use Rattle.wave_parts.specs.Stands.{Stands};

use crate::kept::first_kept;
use crate::parts::Parts;
use crate::settings::Settings;
use defs_soar::Mode;
use dependency_tables::Dependencies;
use input_memory::Inputs;
use input_queue::RandomWords;
use kept_triples::Kept;
use learning_laws::agents_stay_lawful;
use live_firings::LiveFirings;
use rule_shelf::Rules;
use settle_changes::rest_is_kept;
use soar_goals::Goals;
use soar_prefs::Prefs;
use soar_record::Record;
use soar_sym::{Letters, List, NoMemory, Sym, SymTable, Triple};
use soar_wm::{AddFault, Memory};
use std::alloc::Global;

const MOST_ELEMENTS: u32 = 4_000_000;

const MOST_ROWS: u32 = 1_000_000;

const TOP: Sym = Sym::Ident {
    letter: b'S',
    number: 1,
};

const IO: Sym = Sym::Ident {
    letter: b'I',
    number: 1,
};

const INPUT: Sym = Sym::Ident {
    letter: b'I',
    number: 2,
};

const OUTPUT: Sym = Sym::Ident {
    letter: b'I',
    number: 3,
};

impl Parts {
    /// The top state with its input and output links, and no rule (Soar manual, chapter 2, the top state).
    /// `watch` is the watch level.
    pub fn new(alloc: Global, watch: u8) -> Result<Parts, NoMemory>
        ensures stands { IfOk result (λ parts. Stands parts (first_agent watch)) }
        ensures sound { IfOk result (λ parts. IsSound parts) }
        ensures lawful { IfOk result (λ parts. IsOfLawful parts) }
        ensures live { IfOk result (λ parts. parts.live ≡ record { list = []; told = [] }) }
    {
        agents_stay_lawful();
        Parts::first(alloc, watch)
    }

    /// The parts of the first state.
    pub(crate) fn first(alloc: Global, watch: u8) -> Result<Parts, NoMemory>
        ensures stands { IfOk result (λ parts. Stands parts (first_agent watch)) }
        ensures sound { IfOk result (λ parts. IsSound parts) }
        ensures bare { IfOk result (λ parts. IsBare parts) }
    {
        let table = SymTable::new(alloc)?;
        let opening = made_opening(alloc)?;
        Ok(Parts::of_opening(alloc, watch, table, opening))
    }

    /// The opening, with nothing else but words and settings.
    fn of_opening(alloc: Global, watch: u8, table: SymTable, opening: Opening) -> Parts
        requires table { table ≡ architecture }
        requires opening { IsOpening opening }
        ensures stands { Stands result (first_agent watch) }
        ensures sound { IsSound result }
        ensures bare { IsBare result }
    {
        rest_is_kept();
        let Opening {
            memory,
            prefs,
            goals,
            past,
            kept,
        } = opening;
        Parts {
            table,
            letters: first_letters(),
            memory,
            prefs,
            rules: Rules::new(alloc),
            last_rule: 0,
            chains: List::new(alloc),
            chunks: 0,
            justifications: 0,
            goals,
            depends: Dependencies::new(alloc),
            past,
            inputs: Inputs::new(alloc),
            changed: List::new(alloc),
            kept,
            queue: List::new(alloc),
            random: RandomWords::new(alloc),
            live: LiveFirings::new(alloc),
            cycles: 0,
            waves: 0,
            firings: 0,
            retractions: 0,
            learned: 0,
            output: List::new(alloc),
            doubted: List::new(alloc),
            halted: false,
            settings: first_settings(watch),
        }
    }
}

/// What of the start may lack memory.
#[derive(Drop)]
pub struct Opening {
    pub memory: Memory,
    pub prefs: Prefs,
    pub goals: Goals,
    pub past: Record,
    pub kept: Kept,
}

fn made_opening(alloc: Global) -> Result<Opening, NoMemory>
    ensures { IfOk result (λ opening. IsOpening opening) }
{
    let past = Record::new(alloc)?;
    let (goals, kept) = first_goals(alloc)?;
    let (memory, prefs) = first_contents(alloc)?;
    Ok(Opening {
        memory,
        prefs,
        goals,
        past,
        kept,
    })
}

/// The top goal, and what is kept of it.
fn first_goals(alloc: Global) -> Result<(Goals, Kept), NoMemory>
    ensures goals { IfOk result (λ made. made.0 ≡ top_goals) }
    ensures rest { IfOk result (λ made. IsAtRest made.0 [] [] made.1) }
{
    let goals = Goals::new(alloc, TOP)?;
    let kept = first_kept(alloc, goals.list())?;
    Ok((goals, kept))
}

/// Working memory at the start, and preference memory without rows.
fn first_contents(alloc: Global) -> Result<(Memory, Prefs), NoMemory>
    ensures memory { IfOk result (λ made. made.0 ≡ record { elements = first_elements; limit = 4000000; last = 5 }) }
    ensures prefs { IfOk result (λ made. made.1 ≡ record { rows = []; limit = 1000000; settled = [] }) }
{
    let prefs = Prefs::new(alloc, MOST_ROWS)?;
    let memory = first_memory(alloc)?;
    Ok((memory, prefs))
}

/// The settings of the start, at a watch level.
fn first_settings(watch: u8) -> Settings
    ensures { settings_seen result ≡ first_settings watch }
{
    Settings {
        learning: false,
        local_negations: false,
        mode: Mode::Softmax,
        max_elaborations: 100,
        watch,
    }
}

/// The numbers of the first three identifiers of letter I and of the first of letter S are given.
fn first_letters() -> Letters
    ensures { result ≡ first_letters }
{
    let mut letters = Letters::new();
    letters.starting(b'I', 3);
    letters.starting(b'S', 1);
    letters
}

/// Working memory with the elements of the start.
fn first_memory(alloc: Global) -> Result<Memory, NoMemory>
    ensures { IfOk result (λ memory. memory ≡ record { elements = first_elements; limit = 4000000; last = 5 }) }
{
    let mut memory = Memory::new(alloc, MOST_ELEMENTS, 0)?;
    fill(&mut memory)?;
    Ok(memory)
}

/// Adds the elements of the start, which have the tags 1 to 5 in a memory without tags.
fn fill(memory: &mut Memory) -> Result<(), NoMemory>
    requires { memory.old ≡ record { elements = []; limit = 4000000; last = 0 } }
    ensures { OnOk result (memory.new ≡ record { elements = first_elements; limit = 4000000; last = 5 }) }
{
    put(memory, IO, Sym::Word(3), INPUT, false)?;
    put(memory, IO, Sym::Word(4), OUTPUT, false)?;
    put(memory, TOP, Sym::Word(2), IO, true)?;
    put(memory, TOP, Sym::Word(5), Sym::Word(1), true)?;
    put(memory, TOP, Sym::Word(6), Sym::Word(0), true)
}

/// Adds a triple that is new.
fn put(memory: &mut Memory, id: Sym, attr: Sym, value: Sym, of_state: bool) -> Result<(), NoMemory>
    requires missing { tag_of (record { id = id; attr = attr; value = value; accept = false }) memory.old.elements ≡ None }
    requires room { length memory.old.elements < memory.old.limit }
    requires left { memory.old.last < 2 ^ 32 - 1 }
    ensures { OnOk result (memory.new ≡ with_triple memory.old (record { id = id; attr = attr; value = value; accept = false }) of_state) }
{
    let triple = Triple {
        id,
        attr,
        value,
        accept: false,
    };
    match memory.add(triple, of_state) {
        Ok(_) => Ok(()),
        Err(AddFault::NoMemory) => Err(NoMemory),
        Err(_) => unreachable!(),
    }
}

use crate::settings::Settings;
use dependency_tables::Dependencies;
use input_memory::Inputs;
use input_queue::{Queued, RandomWords};
use kept_triples::Kept;
use live_firings::LiveFirings;
use rule_shelf::Rules;
use soar_goals::Goals;
use soar_prefs::Prefs;
use soar_record::Record;
use soar_sym::{Letters, List, SymTable, Triple};
use soar_wm::Memory;
use wave_learning::LearnedRule;

/// What an agent keeps: its words, working memory and what holds that up, its goals, its rules, its firings, what waits
/// for it, how much it did, and how it is set.
#[derive(Drop)]
pub struct Parts {
    pub table: SymTable,
    pub letters: Letters,
    pub memory: Memory,
    pub prefs: Prefs,
    pub rules: Rules,
    pub last_rule: u64,
    /// The explanations of learned rules, which go with their rules.
    pub chains: List<LearnedRule>,
    /// The number in the name of the last chunk, and in that of the last justification.
    pub chunks: u64,
    pub justifications: u64,
    /// The goals, from the top.
    pub goals: Goals,
    /// The tags on which each goal below the top depends. Nothing removes the top goal.
    pub depends: Dependencies,
    /// Those of these tags that may be of elements that are gone: those of elements that went when all was settled, and
    /// those that joined since.
    pub doubted: List<u32>,
    /// The firings since the start, which explain one another.
    pub past: Record,
    pub inputs: Inputs,
    /// The inputs that changed since all was settled.
    pub changed: List<Triple>,
    /// What is kept since then, with its levels.
    pub kept: Kept,
    /// The changes of the inputs that wait for the next input phase, the first of them first.
    pub queue: List<Queued>,
    /// The random words that wait for draws, the next of them first.
    pub random: RandomWords,
    pub live: LiveFirings,
    pub cycles: u64,
    pub waves: u64,
    pub firings: u64,
    pub retractions: u64,
    /// The chunks that were learned in this cycle.
    pub learned: u32,
    /// What the output link showed in the last output phase.
    pub output: List<Triple>,
    pub halted: bool,
    pub settings: Settings,
}

use defs_soar::Mode;
use soar_rule::Production;
use soar_sym::{List, Sym, Text};

/// A symbol, or a label by its name without brackets.
#[derive(Drop)]
pub enum Operand {
    Symbol(Sym),
    Label(Text),
}

/// The identifier, the attribute and the value of an element.
#[derive(Drop)]
pub struct Addition {
    pub id: Operand,
    pub attr: Operand,
    pub value: Operand,
}

/// What a command asks for.
#[derive(Drop)]
pub enum Order {
    /// To load a production.
    Load(Production),
    /// To take the production of a name away.
    Excise(Sym),
    /// To run the commands of the file of a name.
    Source(Text),
    Add(Addition),
    /// To take the element of a tag from the inputs.
    Remove(u64),
    /// To queue a change of the inputs, which adds an element or removes it.
    Queue(bool, Addition),
    /// To queue random words.
    Random(List<u64>),
    /// To run cycles, from 1 to 1,000,000.
    Run(u32),
    /// To set the watch level, from 0 to 5.
    Watch(u8),
    Matches,
    /// The matches of the production of a name.
    MatchesOf(Sym),
    /// The preferences for an attribute of an identifier.
    Preferences(Operand, Operand),
    /// The elements of an identifier.
    Print(Operand),
    /// The production of a name.
    Show(Sym),
    /// All elements.
    PrintMemory,
    /// The names of all productions.
    PrintRules,
    /// All learned productions.
    PrintChunks,
    /// Whether to learn.
    Chunk(bool),
    /// Whether to learn from firings that found something missing in a substate.
    LocalNegations(bool),
    /// How a candidate is drawn.
    SelectBy(Mode),
    /// The most waves of a phase, from 1 to 10,000.
    MaxElaborations(u32),
    /// The explanation of the learned production of a name.
    Explain(Sym),
    Stats,
    /// To start anew, with the productions and the settings.
    InitSoar,
    Quit,
}

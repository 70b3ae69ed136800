ghost use Rattle.std.specs.Prelude.{◌≡◌, string_bytes, IsTrue};
ghost use Rattle.command_labels.specs.Lettered.{is_lettered};

use soar_sym::{Sym, Text};

/// A label of commands by its name, and the identifier that it stands for.
#[derive(Drop)]
pub struct Label {
    pub name: Text,
    pub symbol: Sym,
    ghost lettered: { IsTrue (is_lettered symbol) },
}

impl Label {
    /// The name, and what it stands for.
    pub(crate) fn into_parts(self) -> (String, Meant)
        ensures name { string_bytes result.0 ≡ self.name }
        ensures symbol { result.1.symbol ≡ self.symbol }
    {
        let Label { name, symbol } = self;
        (name.into_string(), Meant { symbol })
    }
}

/// The identifier that a name stands for.
#[derive(Drop)]
pub struct Meant {
    pub symbol: Sym,
    ghost lettered: { IsTrue (is_lettered symbol) },
}

/// A label whose name had come before, and how many labels came before it.
#[derive(Drop)]
pub struct Again {
    pub place: usize,
    pub label: Label,
}

ghost use Rattle.std.specs.Prelude.{◌≡◌, [], ◌∷◌, ◌++◌, map, IfOk};
ghost use Rattle.defs_match.specs.Rows.{empty_row};

use soar_sym::{List, NoMemory, Sym};
use std::alloc::Global;
use std::marker::Model;

/// A row of a partial match: the tags of its elements, and what its variables stand for, by their numbers.
#[derive(Drop)]
pub struct Row {
    tags: List<u32>,
    bindings: List<(u32, Sym)>,
}

impl Model for Row {
    ghost use Rattle.defs_match.specs.Rows.{Row as RowOf};

    ghost Value = { RowOf };

    ghost view = { λ row. record { tags = row.tags; bindings = row.bindings } };
}

impl Row {
    /// The row of no element.
    pub fn empty(alloc: Global) -> Row
        ensures { result ≡ empty_row }
    {
        Row {
            tags: List::new(alloc),
            bindings: List::new(alloc),
        }
    }

    /// The row of these tags and bindings.
    pub fn new(tags: List<u32>, bindings: List<(u32, Sym)>) -> Row
        ensures { result ≡ record { tags = tags; bindings = bindings } }
    {
        Row { tags, bindings }
    }

    /// The tags of its elements, in the order in which they were taken.
    pub fn tags(&self) -> &[u32]
        ensures { result.now ≡ self.now.tags }
    {
        self.tags.as_slice()
    }

    /// What its variables stand for, in the order in which they were bound.
    pub fn bindings(&self) -> &[(u32, Sym)]
        ensures { result.now ≡ self.now.bindings }
    {
        self.bindings.as_slice()
    }

    /// The row with one element more, and these bindings.
    pub fn with(&self, alloc: Global, tag: u32, bindings: &[(u32, Sym)]) -> Result<Row, NoMemory>
        ensures { IfOk result (λ row. row ≡ record { tags = self.now.tags ++ tag ∷ []; bindings = bindings.now }) }
    {
        let mut tags = List::from_slice(alloc, self.tags.as_slice())?;
        tags.push(tag)?;
        let bindings = List::from_slice(alloc, bindings)?;
        Ok(Row { tags, bindings })
    }

    /// A copy that shares no memory with it.
    pub fn copy(&self, alloc: Global) -> Result<Row, NoMemory>
        ensures { IfOk result (λ row. row ≡ self.now) }
    {
        let tags = List::from_slice(alloc, self.tags.as_slice())?;
        let bindings = List::from_slice(alloc, self.bindings.as_slice())?;
        Ok(Row { tags, bindings })
    }

    /// The tags, and the symbols of the bindings.
    pub fn into_parts(self, alloc: Global) -> Result<(List<u32>, List<Sym>), NoMemory>
        ensures tags { IfOk result (λ parts. parts.0 ≡ self.tags) }
        ensures binds { IfOk result (λ parts. parts.1 ≡ map (λ b. b.1) self.bindings) }
    {
        let Row { tags, bindings } = self;
        let binds = symbols_of(alloc, bindings.as_slice())?;
        Ok((tags, binds))
    }
}

fn symbols_of(alloc: Global, bindings: &[(u32, Sym)]) -> Result<List<Sym>, NoMemory>
    ensures { IfOk result (λ symbols. symbols ≡ map (λ b. b.1) bindings.now) }
{
    let mut symbols = List::new(alloc);
    'bindings: for binding in bindings {
        symbols.push(binding.1)?;
    }
    Ok(symbols)
}

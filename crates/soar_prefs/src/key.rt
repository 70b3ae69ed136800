use soar_sym::Sym;

/// By what rows are found.
#[derive(Clone, Copy)]
pub enum Key {
    /// Whether they have operator support, and their firing.
    Firing(bool, u64),
    /// Their identifier.
    Id(Sym),
    /// Their identifier and attribute.
    Variablized(Sym, Sym),
    /// Their triple, marks apart.
    Triple(Sym, Sym, Sym),
}

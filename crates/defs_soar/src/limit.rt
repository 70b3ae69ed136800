/// What a limit of the engine counts.
#[derive(Clone, Copy, Debug, PartialEq, Eq)]
pub enum Which {
    /// Numbers of identifiers, 2^32 - 1 for each letter.
    Identifiers,
    /// Words of the table, 2^32 - 1.
    Words,
    /// Preferences, 1,000,000.
    Preferences,
    /// Elements of working memory, 4,000,000.
    Elements,
    /// Tags, 2^32 - 1.
    Tags,
    /// Cycles, waves, firings, retractions, rule numbers and numbers of learned names, 2^64 - 1 each.
    Counts,
}

use soar_sym::List;

/// The number of a rule, and the tags of one of its instances.
#[derive(Drop, PartialEq, Eq, PartialOrd, Ord, Hash)]
pub struct MatchKey {
    pub rule: u64,
    pub tags: List<u32>,
}

use crate::hand::AtHand;
use soar_sym::List;

/// A wave while it learns: as it came out so far, the numbers of the firings from which learning goes on, and the place
/// among the entries from which the next of them is sought.
#[derive(Drop)]
pub(crate) struct Going {
    pub(crate) hand: AtHand,
    pub(crate) next: List<u64>,
    pub(crate) place: usize,
}

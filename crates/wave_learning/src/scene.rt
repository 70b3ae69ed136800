use firing_records::Before;
use soar_record::Record;

/// What learning reads and leaves as it is: what is before the wave, its firings, and how learning is set.
#[derive(Clone, Copy)]
pub(crate) struct Scene<'a> {
    pub(crate) before: &'a Before<'a>,
    pub(crate) past: &'a Record,
    pub(crate) on: bool,
    pub(crate) local_negations: bool,
}

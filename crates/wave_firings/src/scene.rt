use firing_records::Before;
use rule_shelf::Rules;
use std::alloc::Global;

/// What the firings of a wave read and leave as it is.
#[derive(Clone, Copy)]
pub struct Scene<'a> {
    pub alloc: Global,
    pub before: &'a Before<'a>,
    pub rules: &'a Rules,
}

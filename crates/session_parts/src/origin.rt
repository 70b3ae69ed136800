/// Where a command comes from: the name of its source, and the number of its first line there.
#[derive(Clone, Copy)]
pub struct Origin<'a> {
    pub source: &'a str,
    pub line: u64,
}

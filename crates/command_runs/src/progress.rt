/// How far a run has gone: what carries its commands out, whether one was refused, and how many files were asked for.
#[derive(Drop)]
pub struct Progress<C: Drop> {
    pub carrier: C,
    pub refused: bool,
    pub fetched: u32,
}

use soar_sym::Text;

/// How a command went: it was carried out, or refused with the number of the refusal, or asks for what the caller does: to
/// run so many cycles, to run the commands of a file of this name, or to end.
#[derive(Drop)]
pub enum Outcome {
    Done,
    Refused(u32),
    Run(u32),
    Source(Text),
    Quit,
}

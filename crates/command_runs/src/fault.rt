ghost use Rattle.std.specs.Prelude.{◌≡◌};
ghost use Rattle.command_runs.specs.Following.{fault_of};

use soar_edge::PutFault;

/// What broke the commands of a stream off: the shelf or the sink failed, or there was no memory.
#[derive(Clone, Copy, PartialEq, Eq)]
pub enum Fault {
    Shelf,
    Sink,
    NoMemory,
}

/// What broke a whole run off: the source failed, or its commands broke off.
#[derive(Clone, Copy, PartialEq, Eq)]
pub enum Broken {
    Source,
    Run(Fault),
}

/// The fault of a write.
pub fn fault_of(fault: PutFault) -> Fault
    ensures { result ≡ fault_of fault }
{
    match fault {
        PutFault::Failed => Fault::Sink,
        PutFault::NoMemory => Fault::NoMemory,
    }
}

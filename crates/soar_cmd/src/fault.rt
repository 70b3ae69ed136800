ghost use Rattle.std.specs.Prelude.{◌≡◌};
ghost use Rattle.soar_cmd.specs.declared.fault.CmdFault.TheVariants as faults;

use soar_sym::{NoMemory, Sym};

/// What the text of a refusal shows behind its reason: a byte, a number, or the name of a variable.
#[derive(Clone, Copy)]
pub enum Shown {
    Nothing,
    Place(u32),
    Number(u32),
    Variable(Sym),
}

/// Why a command gives no order: it is refused, its new words are more than the table holds, or there is no memory.
#[derive(Clone, Copy)]
pub enum CmdFault {
    Refused { number: u32, shown: Shown },
    WordsSpent,
    NoMemory,
}

impl From<NoMemory> for CmdFault {
    ghost from_gives = { λ _ fault. fault ≡ faults.NoMemory };

    fn from(_error: NoMemory) -> CmdFault {
        CmdFault::NoMemory
    }
}

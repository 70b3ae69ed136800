// The order to run the commands of a file.
ghost use Rattle.std.specs.Prelude.{◌≤◌, ◌^◌, IfOk, Ok, length};
ghost use Rattle.soar_sym.specs.Words.{Texts};
ghost use Rattle.defs_run.specs.Orders.{source};
ghost use Rattle.defs_run.specs.WholeReading.{file_name, source_order};
ghost use Rattle.command_orders.specs.Known.{IsOrderKnown};
ghost use Rattle.soar_cmd.specs.Answers.{IsJudged};

use crate::fault::CmdFault;
use crate::refused::{refused, refused_at};
use defs_run::Order;
use file_names::{NameFault, file_name};
use soar_sym::Text;
use std::alloc::Global;

/// The order of a command that names a file.
pub fn source_order(alloc: Global, text: &[u8]) -> Result<Order, CmdFault>
    requires { length text.now ≤ 2 ^ 26 }
    ensures judged { (words : Texts) → IsJudged words (source_order text.now (file_name text.now)) result }
    ensures known { (words : Texts) → IfOk result (λ order. IsOrderKnown words order) }
{
    match file_name(text) {
        Ok(name) => named_order(alloc, name),
        Err(NameFault::BadByte(place)) => Err(refused_at(12, place)),
        Err(NameFault::Empty) => Err(refused(30)),
    }
}

/// The order for the file of a name.
fn named_order(alloc: Global, name: &str) -> Result<Order, CmdFault>
    ensures judged { (words : Texts) → IsJudged words (Ok (source name.now)) result }
    ensures known { (words : Texts) → IfOk result (λ order. IsOrderKnown words order) }
{
    match Text::from_str(alloc, name) {
        Ok(name) => Ok(Order::Source(name)),
        Err(_) => Err(CmdFault::NoMemory),
    }
}

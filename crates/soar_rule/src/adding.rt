// Lists that grow by what a call answers.
ghost use Rattle.std.specs.Prelude.{◌≡◌, ◌++◌, [], ◌∷◌, IfOk};
ghost use Rattle.std.specs.Result.{IsOkAnd};

use soar_sym::{List, NoMemory};
use std::alloc::Global;

/// No items yet, and room for so many.
pub fn room_for<T>(alloc: Global, count: usize) -> Result<List<T>, NoMemory>
    ensures { IfOk result (λ list. list ≡ []) }
{
    Ok(List::from_vec(Vec::with_capacity(alloc, count)?))
}

/// The list with an item more, where there is one.
///
/// It takes the list and gives it back, so that a loop has nothing to let go where it ends with an `Err`.
pub fn added<T: Drop>(list: List<T>, item: Result<T, NoMemory>) -> Result<List<T>, NoMemory>
    ensures { IfOk result (λ more. IsOkAnd item (λ x. more ≡ list ++ x ∷ [])) }
{
    let item = item?;
    let mut list = list;
    list.push(item)?;
    Ok(list)
}

//! Sorts the calls of a table by number.
ghost use Rattle.std.specs.Prelude.{map, IfOk};
ghost use Rattle.call_table.specs.Table.{calls_in};
ghost use Rattle.filter_settings.specs.filter_rules.Order.{Ascends};

use call_table::{CallLine, CallTable};
use std::alloc::{AllocError, Global};

/// Returns the calls of the ABI at this position, ascending by number.
pub fn ascending<'t>(
    alloc: Global,
    table: &'t CallTable,
    abi: u8,
) -> Result<Vec<&'t CallLine>, AllocError>
    ensures ascending { IfOk result (λ ordered. Ascends (calls_in table.now abi) (map (λ call. call.now) ordered.items)) }
{
    let calls = table.calls_in(abi);
    let mut ordered = Vec::new(alloc);
    for numbered in table.by_number_in(abi) {
        ordered.push(&calls[numbered.position])?;
    }
    Ok(ordered)
}

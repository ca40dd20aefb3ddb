//! The table that a text is.
ghost use Rattle.std.specs.Result.{result_map_both};
ghost use Rattle.toml.specs.View.{table_view};
ghost use Rattle.xb_fields.specs.Fields.{document};
ghost use Rattle.xb_fields.specs.Outcomes.{Gives};

use crate::fault::{FieldError, Location};
use std::alloc::Global;
use toml::{Table, table_from_slice};
use xb_domain::BadKind;

/// Reads the table that a text is. A text that is not UTF-8, or not TOML, has the fault `Text` at the top.
pub fn read_document(alloc: Global, text: &[u8]) -> Result<Table, FieldError>
    ensures { Gives (result_map_both (λ t. table_view t) (λ e. e) result) (document text.now) }
{
    match table_from_slice(alloc, text) {
        Ok(table) => Ok(table),
        Err(error) => {
            if error.is_memory() {
                Err(FieldError::OutOfMemory)
            } else {
                Err(FieldError::Bad(Location::TOP.fault(BadKind::Text)))
            }
        }
    }
}

// Whether a row has a word at all: the checks that every call on a word begins with.
ghost use Rattle.code.specs.Calls.{Checks};

use crate::ShapeFault;
use settings::depth_is_allowed;

// Passes, or answers the first check that fails: the depth (1), then the row's length and the word (8).
pub fn check_shape(row: &[u8], depth: usize, word: usize) -> Result<(), ShapeFault>
    ensures { Checks depth word row.now result }
{
    if !depth_is_allowed(depth) {
        return Err(ShapeFault::Depth);
    }
    if row.len() != 255 * depth || word >= depth {
        return Err(ShapeFault::Row);
    }
    Ok(())
}

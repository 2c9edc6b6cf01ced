//! Whether each operation may stand in a script.

ghost use Rattle.std.specs.Prelude.{IsTrue, ◌↔◌, All};
ghost use Rattle.ds_script.specs.Fits.{IsOp};

use crate::op::Op;

/// Whether each operation may stand in a script of so many.
pub fn all_fit(size: usize, ops: &[Op]) -> bool
    ensures { IsTrue result ↔ All (IsOp size) ops.now }
{
    for op in ops {
        if !op.fits(size) {
            return false;
        }
    }
    true
}

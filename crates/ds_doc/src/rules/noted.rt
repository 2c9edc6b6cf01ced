//! Faults that were found.

ghost use Rattle.std.specs.Prelude.{◌≡◌, ◌++◌, OnOk};
ghost use Rattle.ds_doc.specs.Shapes.{unless, least};

use crate::fault::{Fault, lesser};
use std::alloc::AllocError;

/// Appends the fault, unless all is well there.
pub(crate) fn note(faults: &mut Vec<Fault>, fine: bool, code: u8, at: u32) -> Result<(), AllocError>
    ensures { OnOk result (faults.new.items ≡ faults.old.items ++ unless fine code at) }
{
    if !fine {
        faults.push(Fault { code, at })?;
    }
    Ok(())
}

/// The least fault.
#[tactic(auto, using(crate::proofs::Least::least_append, crate::proofs::Least::least_more, crate::proofs::Least::lesser_none))]
pub(crate) fn least_of(faults: &[Fault]) -> Option<Fault>
    ensures { result ≡ least faults.now }
{
    let mut found = None;
    for fault in faults {
        found = lesser(found, Some(*fault));
    }
    found
}

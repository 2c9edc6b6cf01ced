//! From the bytes of a document to the text of its run.
#![tactic(auto)]

ghost use Rattle.std.specs.Prelude.{◌≡◌, List, ℕ, IfErr, IfOk};
ghost use Rattle.dstar.specs.Sims.{IsRunOf, IsRefusedBy};

use ds_boot::make_lane_keys;
use ds_doc::{DocFault, read_keyed};
use ds_sim::run_text_with;
use std::alloc::Global;

/// The text of the run of the document that the bytes say, or the least code of a rule that they break and the least place where
/// it is broken.
pub(crate) fn simulate(alloc: Global, bytes: &[u8]) -> Result<Vec<u8>, DocFault>
    ensures ok { IfOk result (λ text. IsRunOf bytes.now text.items) }
    ensures err { IfErr result (IsRefusedBy bytes.now) }
{
    let (doc, identities) = read_keyed(alloc, bytes)?;
    let keys = make_lane_keys(alloc, &doc, identities)?;
    let text = run_text_with(alloc, doc, keys)?;
    Ok(text)
}

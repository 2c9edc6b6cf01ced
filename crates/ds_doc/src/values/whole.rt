//! The document.

ghost use Rattle.std.specs.Prelude.{◌≡◌, IfOk};
ghost use Rattle.ds_doc.specs.Values as values;

use crate::draft::Draft;
use crate::rules::numbers;
use crate::values::categories::Keys;
use crate::values::certs::certs_of;
use crate::values::events::given_events;
use crate::values::hosts::hosts_of;
use ds_plan::Doc;
use std::alloc::{AllocError, Global};

/// The document that a draft is, where the hosts have these keys.
#[tactic(auto, unfolding(crate::specs::Values::doc_by))]
pub(crate) fn doc_of(alloc: Global, keys: &Keys, draft: &Draft) -> Result<Doc, AllocError>
    ensures { IfOk result (λ d. d ≡ values.doc_by keys.now draft.now) }
{
    Ok(Doc {
        hosts: hosts_of(alloc, keys, draft.hosts.as_slice())?,
        moment: draft.moment,
        budget: draft.budget,
        certs: certs_of(alloc, keys, draft.certs.as_slice())?,
        links: numbers(alloc, &draft.links)?,
        events: given_events(alloc, &draft.events)?,
    })
}

//! The keys that the hosts of a document and their lanes sign with.
#![tactic(auto)]

ghost use Rattle.std.specs.Prelude.{◌≡◌, map, IfOk};
ghost use Rattle.ds_plan.specs.Keys.{identity_key};
ghost use Rattle.ds_plan.specs.Documents.{IsDocument};
ghost use Rattle.ds_boot.specs.AllKeys.{AreKeysOf};

use crate::{forked, trees};
use ds_plan::Doc;
use lms_sig::TreeKey;
use std::alloc::{AllocError, Global};
use std::thread::Threads;

/// The keys that the hosts of a document and their lanes sign with, by the hosts' places.
#[derive(Drop)]
pub struct DocKeys {
    /// The identity key of each host; none of a silent one.
    pub identities: Vec<Option<TreeKey>>,
    /// The keys of each host's lanes, by the lanes' places; a silent host has no lanes.
    pub lanes: Vec<Vec<TreeKey>>,
}

/// All keys of a document, made one after another. `AllocError` where memory runs out.
pub fn make_keys(alloc: Global, doc: &Doc) -> Result<DocKeys, AllocError>
    requires { IsDocument doc.now }
    ensures { IfOk result (λ keys. AreKeysOf doc.now keys) }
{
    let identities = trees::identity_trees(alloc, doc.hosts.as_slice())?;
    make_lane_keys(alloc, doc, identities)
}

/// All keys of a document of which the hosts' identity keys are made, the keys of its lanes made one after another. `AllocError`
/// where memory runs out.
pub fn make_lane_keys(
    alloc: Global,
    doc: &Doc,
    identities: Vec<Option<TreeKey>>,
) -> Result<DocKeys, AllocError>
    requires document { IsDocument doc.now }
    requires identities { identities.items ≡ map identity_key doc.now.hosts }
    ensures { IfOk result (λ keys. AreKeysOf doc.now keys) }
{
    let lanes = trees::each_lane_trees(alloc, doc.hosts.as_slice())?;
    Ok(DocKeys { identities, lanes })
}

/// All keys of a document of which the hosts' identity keys are made, the keys of its lanes made at once, each in a thread of its own
/// where one can be made: the same as `make_lane_keys` makes. `AllocError` where memory runs out.
pub fn make_lane_keys_in_threads<R: Threads + Sync>(
    rt: &R,
    alloc: Global,
    doc: &Doc,
    identities: Vec<Option<TreeKey>>,
) -> Result<DocKeys, AllocError>
    requires document { IsDocument doc.now }
    requires identities { identities.items ≡ map identity_key doc.now.hosts }
    ensures { IfOk result (λ keys. AreKeysOf doc.now keys) }
{
    let lanes = forked::each_lane_trees(rt, alloc, doc.hosts.as_slice())?;
    Ok(DocKeys { identities, lanes })
}

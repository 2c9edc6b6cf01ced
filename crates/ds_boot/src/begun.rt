//! Hosts as far as they need nothing of each other: their signers, behind all that they sign of their own, their address
//! certificates and their lanes.
#![tactic(auto)]

ghost use Rattle.std.specs.Prelude.{◌≡◌, ◌++◌, ◌<◌, ◌≤◌, ◌+◌, ℕ, [], ◌∷◌, true, false, Some, None, get_or, length, map, slice_get, slice_set, All, IfOk, OnOk};
ghost use Rattle.ds_plan.specs.Keys.{host_keys, identity_key};
ghost use Rattle.ds_plan.specs.Documents.{is_address_if_some, is_silent};
ghost use Rattle.ds_setup.specs.Lists.{each};
ghost use Rattle.ds_setup.specs.Signed.{address_leaves};
ghost use Rattle.ds_setup.specs.Starts.{own_address, own_addresses};
ghost use Rattle.ds_boot.specs.Signers.{identity_tree, signer_at, signing_at};
ghost use Rattle.ds_boot.specs.AllKeys.{lane_trees, trees_of};
ghost use Rattle.ds_boot.specs.Signing.{signer_behind};
ghost use Rattle.ds_boot.specs.Lanes.{MayBegin, lanes_begun, lanes_of};

use crate::keys::fresh_signer;
use crate::lanes::begin_lanes;
use crate::signing::sign_address;
use ds_cert::Address;
use ds_exporter::LaneList;
use ds_label::PubKey;
use ds_plan::HostSpec;
use lms_sig::TreeKey;
use lms_state::Signer;
use std::alloc::{AllocError, Global};
use std::mem;

/// The signers of all hosts, none of a silent one, their own address certificates, and the lanes of each.
#[derive(Drop)]
pub struct Begun {
    pub signers: Vec<Option<Signer>>,
    pub addresses: Vec<Address>,
    pub lanes: Vec<LaneList>,
}

/// A running host's own address certificate, where it has an address. `AllocError` where memory runs out.
fn push_own_address(
    addresses: &mut Vec<Address>,
    host: &HostSpec,
    signer: &mut Signer,
) -> Result<(), AllocError>
    requires runs { is_silent host.now.secret ≡ false }
    requires address { is_address_if_some host.now.address ≡ true }
    requires signer { signer.old ≡ signing_at 0 (identity_tree host.now) }
    ensures address { OnOk result (addresses.new.items ≡ addresses.old.items ++ own_address host.now.identity host.now.secret host.now.address) }
    ensures signer { OnOk result (signer.new ≡ signing_at (address_leaves host.now) (identity_tree host.now)) }
{
    let Some(address) = &host.address else {
        return Ok(());
    };
    let exporter = PubKey(signer.public());
    addresses.push(sign_address(signer, exporter, address)?)?;
    Ok(())
}

/// A running host with that identity key, and these keys of its lanes. `AllocError` where memory runs out.
fn begin_running(
    alloc: Global,
    keys: &[PubKey],
    at: u32,
    host: &HostSpec,
    tree: TreeKey,
    lane_keys: Vec<TreeKey>,
    begun: &mut Begun,
) -> Result<(), AllocError>
    requires runs { is_silent host.now.secret ≡ false }
    requires fits { MayBegin (length keys.now) host.now }
    requires tree { tree ≡ identity_tree host.now }
    requires lanes { lane_keys.items ≡ lane_trees host.now }
    ensures signers { OnOk result (begun.new.signers.items ≡ begun.old.signers.items ++ Some (signing_at (address_leaves host.now + length host.now.lanes) (identity_tree host.now)) ∷ []) }
    ensures addresses { OnOk result (begun.new.addresses.items ≡ begun.old.addresses.items ++ own_address host.now.identity host.now.secret host.now.address) }
    ensures lanes { OnOk result (map lanes_of begun.new.lanes.items ≡ map lanes_of begun.old.lanes.items ++ lanes_begun keys.now at host.now ∷ []) }
{
    let mut signer = fresh_signer(tree);
    push_own_address(&mut begun.addresses, host, &mut signer)?;
    let lanes = begin_lanes(alloc, keys, at, host, lane_keys, &mut signer)?;
    begun.lanes.push(lanes)?;
    begun.signers.push(Some(signer))?;
    Ok(())
}

/// A silent host. `AllocError` where memory runs out.
fn begin_silent(alloc: Global, begun: &mut Begun) -> Result<(), AllocError>
    ensures signers { OnOk result (begun.new.signers.items ≡ begun.old.signers.items ++ None ∷ []) }
    ensures addresses { OnOk result (begun.new.addresses ≡ begun.old.addresses) }
    ensures lanes { OnOk result (map lanes_of begun.new.lanes.items ≡ map lanes_of begun.old.lanes.items ++ [] ∷ []) }
{
    begun.lanes.push(Vec::new(alloc))?;
    begun.signers.push(None)?;
    Ok(())
}

/// The next host, with that identity key if it runs, and these keys of its lanes. `AllocError` where memory runs out.
fn begin_host(
    alloc: Global,
    keys: &[PubKey],
    at: u32,
    host: &HostSpec,
    tree: Option<TreeKey>,
    lane_keys: Vec<TreeKey>,
    begun: &mut Begun,
) -> Result<(), AllocError>
    requires fits { MayBegin (length keys.now) host.now }
    requires tree { tree ≡ identity_key host.now }
    requires lanes { lane_keys.items ≡ lane_trees host.now }
    ensures signers { OnOk result (begun.new.signers.items ≡ begun.old.signers.items ++ signer_behind [] at host.now ∷ []) }
    ensures addresses { OnOk result (begun.new.addresses.items ≡ begun.old.addresses.items ++ own_address host.now.identity host.now.secret host.now.address) }
    ensures lanes { OnOk result (map lanes_of begun.new.lanes.items ≡ map lanes_of begun.old.lanes.items ++ lanes_begun keys.now at host.now ∷ []) }
{
    match tree {
        Some(tree) => begin_running(alloc, keys, at, host, tree, lane_keys, begun),
        None => begin_silent(alloc, begun),
    }
}

/// Takes the identity key of the host at a place.
fn take_tree(trees: &mut [Option<TreeKey>], at: usize) -> Option<TreeKey>
    requires { at < length trees.old }
    ensures tree { result ≡ get_or trees.old at None }
    ensures rest { trees.new ≡ slice_set trees.old at None }
{
    trees[at].take()
}

/// Takes the keys of the lanes of the host at a place.
fn take_lane_keys(alloc: Global, lane_keys: &mut [Vec<TreeKey>], at: usize) -> Vec<TreeKey>
    requires { at < length lane_keys.old }
    ensures keys { slice_get lane_keys.old at ≡ Some result }
    ensures count { length lane_keys.new ≡ length lane_keys.old }
    ensures rest { (j : ℕ) → at + 1 ≤ j → slice_get lane_keys.new j ≡ slice_get lane_keys.old j }
{
    mem::replace(&mut lane_keys[at], Vec::new(alloc))
}

/// All hosts, with their identity keys and those of their lanes. `AllocError` where memory runs out.
pub fn begin_hosts(
    alloc: Global,
    hosts: &[HostSpec],
    keys: &[PubKey],
    trees: &mut [Option<TreeKey>],
    lane_keys: &mut [Vec<TreeKey>],
) -> Result<Begun, AllocError>
    requires few { length hosts.now ≤ 16 }
    requires fits { All (MayBegin (length keys.now)) hosts.now }
    requires trees { trees.old ≡ map identity_key hosts.now }
    requires lane_keys { map trees_of lane_keys.old ≡ map lane_trees hosts.now }
    ensures signers { IfOk result (λ b. b.signers.items ≡ each (signer_behind []) hosts.now) }
    ensures addresses { IfOk result (λ b. b.addresses.items ≡ own_addresses hosts.now) }
    ensures lanes { IfOk result (λ b. map lanes_of b.lanes.items ≡ each (lanes_begun keys.now) hosts.now) }
{
    let mut begun = Begun {
        signers: Vec::new(alloc),
        addresses: Vec::new(alloc),
        lanes: Vec::new(alloc),
    };
    for (at, host) in hosts.iter().enumerate() {
        let tree = take_tree(trees, at);
        let own = take_lane_keys(alloc, lane_keys, at);
        begin_host(alloc, keys, at as u32, host, tree, own, &mut begun)?;
    }
    Ok(begun)
}

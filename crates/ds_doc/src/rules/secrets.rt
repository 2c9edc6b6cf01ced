//! Whether two hosts have one key or one seed.

ghost use Rattle.std.specs.Prelude.{◌≡◌, ◌++◌, [], take, OnOk, IfOk};
ghost use Rattle.lms_sig.specs.Keys.{derived_seed, derived_id};
ghost use Rattle.lms_sig.specs.Merkle.{public_key};
ghost use Rattle.lms_sig.specs.Parameters.{lms_code, ots_code};
ghost use Rattle.ds_plan.specs.Documents.{stood};
ghost use Rattle.ds_plan.specs.Keys as keys;
ghost use Rattle.ds_doc.specs.Rules as of_rules;

use crate::draft::DraftHost;
use crate::fault::Fault;
use crate::rules::noted::note;
use ds_label::PubKey;
use ds_plan::Secret;
use ds_wire::{Bytes, put_u32};
use lms_sig::{LmsType, OtsType, Params, TreeKey, derive};
use std::alloc::{AllocError, Global};

fn lms_number(lms: LmsType) -> u32
    ensures { result ≡ lms_code lms }
{
    match lms {
        LmsType::H5 => 5,
        LmsType::H10 => 6,
    }
}

fn ots_number(ots: OtsType) -> u32
    ensures { result ≡ ots_code ots }
{
    match ots {
        OtsType::W4 => 3,
        OtsType::W8 => 4,
    }
}

/// The types and the identifier of a running host's key, the first 24 bytes of it.
#[tactic(auto, using(crate::proofs::Heads::running))]
fn running_head(alloc: Global, identity: Params, secret: &[u8; 32]) -> Result<Bytes, AllocError>
    ensures { IfOk result (λ b. b ≡ take 24 (public_key identity (derived_seed secret.now 0) (derived_id secret.now 0))) }
{
    let (_seed, id) = derive(secret, 0);
    let mut head = Bytes::new(alloc);
    put_u32(&mut head, lms_number(identity.lms))?;
    put_u32(&mut head, ots_number(identity.ots))?;
    head.append(&id)?;
    Ok(head)
}

/// The first 24 bytes of a host's key, which take no tree.
fn head_of(alloc: Global, host: &DraftHost) -> Result<Bytes, AllocError>
    ensures { IfOk result (λ b. b ≡ take 24 (keys.key_of host.now.identity host.now.secret.value).0) }
{
    match &host.secret.value {
        Secret::Seed(secret) => running_head(alloc, host.identity, secret),
        Secret::Key(key) => Bytes::from_slice(alloc, &key.0[..24]),
    }
}

/// A running host's identity key.
pub(crate) fn tree_of(
    alloc: Global,
    identity: Params,
    secret: &[u8; 32],
) -> Result<TreeKey, AllocError>
    ensures { IfOk result (λ t. t ≡ record { params = identity; seed = derived_seed secret.now 0; id = derived_id secret.now 0 }) }
{
    let (seed, id) = derive(secret, 0);
    TreeKey::make(alloc, identity, seed, id)
}

/// A host's key. That of a running host takes a tree.
fn key_of(alloc: Global, host: &DraftHost) -> Result<PubKey, AllocError>
    ensures { IfOk result (λ k. k ≡ keys.key_of host.now.identity host.now.secret.value) }
{
    match &host.secret.value {
        Secret::Seed(secret) => Ok(PubKey(tree_of(alloc, host.identity, secret)?.public())),
        Secret::Key(key) => Ok(*key),
    }
}

fn same_seed(first: &Secret, second: &Secret) -> bool
    ensures { result ≡ of_rules.same_seed first.now second.now }
{
    match (first, second) {
        (Secret::Seed(first), Secret::Seed(second)) => first.as_slice() == second.as_slice(),
        _ => false,
    }
}

/// Whether both have one key. Trees are made only where types and identifiers are the same.
fn same_key(alloc: Global, first: &DraftHost, second: &DraftHost) -> Result<bool, AllocError>
    ensures { IfOk result (λ b. b ≡ keys.same_key (keys.key_of first.now.identity first.now.secret.value) (keys.key_of second.now.identity second.now.secret.value)) }
{
    let head = head_of(alloc, first)?;
    let other = head_of(alloc, second)?;
    if head.as_slice() != other.as_slice() {
        return Ok(false);
    }
    let key = key_of(alloc, first)?;
    let other = key_of(alloc, second)?;
    Ok(key.0.as_slice() == other.0.as_slice())
}

#[tactic(auto, unfolding(crate::specs::Rules::same_secret))]
fn same_secret(alloc: Global, first: &DraftHost, second: &DraftHost) -> Result<bool, AllocError>
    ensures { IfOk result (λ b. b ≡ of_rules.same_secret first.now second.now) }
{
    let same = same_key(alloc, first, second)?;
    Ok(same || same_seed(&first.secret.value, &second.secret.value))
}

fn has_secret(alloc: Global, before: &[DraftHost], host: &DraftHost) -> Result<bool, AllocError>
    ensures { IfOk result (λ b. b ≡ stood of_rules.same_secret before.now host.now) }
{
    for other in before {
        if same_secret(alloc, other, host)? {
            return Ok(true);
        }
    }
    Ok(false)
}

/// A host's seed or key stands once.
pub(crate) fn secrets(
    alloc: Global,
    faults: &mut Vec<Fault>,
    hosts: &[DraftHost],
) -> Result<(), AllocError>
    ensures { OnOk result (faults.new.items ≡ faults.old.items ++ of_rules.repeats of_rules.same_secret of_rules.secret_place [] hosts.now) }
{
    for (place, host) in hosts.iter().enumerate() {
        let stood = has_secret(alloc, &hosts[..place], host)?;
        note(faults, !stood, 6, host.secret.at)?;
    }
    Ok(())
}

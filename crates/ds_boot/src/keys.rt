//! Keys that hosts and lanes sign with.
#![tactic(auto)]

ghost use Rattle.std.specs.Prelude.{◌≡◌, map, IfOk};
ghost use Rattle.ds_plan.specs.Keys.{identity_key, host_key, host_keys};
ghost use Rattle.ds_boot.specs.Signers.{signer_at, signing_at};

use ds_base::CalmKeeper;
use ds_label::PubKey;
use ds_plan::{HostSpec, Secret};
use lms_sig::TreeKey;
use lms_state::Signer;
use std::alloc::{AllocError, Global};

/// A signer of a key of which no leaf is spent.
pub fn fresh_signer(tree: TreeKey) -> Signer
    ensures { result ≡ signing_at 0 tree }
{
    let Ok(signer) = Signer::resume(tree, &mut CalmKeeper::new()) else {
        unreachable!();
    };
    signer
}

/// The signer of a host's identity key; none where the host is silent.
pub fn fresh_signer_of(tree: Option<TreeKey>) -> Option<Signer>
    ensures { result ≡ signer_at 0 tree }
{
    match tree {
        Some(tree) => Some(fresh_signer(tree)),
        None => None,
    }
}

/// The public key of a host with that identity key.
fn public_key_of(host: &HostSpec, tree: &Option<TreeKey>) -> PubKey
    requires { tree.now ≡ identity_key host.now }
    ensures { result ≡ host_key host.now }
{
    match &host.secret {
        Secret::Key(key) => *key,
        Secret::Seed(_) => {
            let Some(tree) = tree else {
                unreachable!();
            };
            PubKey(tree.public())
        }
    }
}

/// The public key of each host.
pub fn public_keys(
    alloc: Global,
    hosts: &[HostSpec],
    trees: &[Option<TreeKey>],
) -> Result<Vec<PubKey>, AllocError>
    requires { trees.now ≡ map identity_key hosts.now }
    ensures { IfOk result (λ keys. keys.items ≡ host_keys hosts.now) }
{
    let mut keys = Vec::new(alloc);
    for (place, host) in hosts.iter().enumerate() {
        keys.push(public_key_of(host, &trees[place]))?;
    }
    Ok(keys)
}

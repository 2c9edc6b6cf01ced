//! What is signed at a signer's next leaf.
#![tactic(auto)]

ghost use Rattle.std.specs.Prelude.{◌≡◌, ◌+◌, ◌<◌, ◌≤◌, [], length, IfOk, OnOk};
ghost use Rattle.lms_state.specs.Signers.{next_signature, one_leaf_on};
ghost use Rattle.ds_cert.specs.Spelling.{signed_part_of_delegation};
ghost use Rattle.ds_desk.specs.Signing.{unsigned, with_signature};
ghost use Rattle.ds_boot.specs.Signing.{HasLeaf, address_by, blank_address, lane_by};

use ds_base::CalmKeeper;
use ds_cert::{Address, Delegation, LaneCert};
use ds_label::{Category, PubKey};
use ds_wire::Bytes;
use lms_state::{SignFault, Signer};
use std::alloc::{AllocError, Global};

/// The signature of a message at the signer's next leaf, of which one is left. `AllocError` where memory runs out; the
/// signer is as it was then.
pub fn sign(signer: &mut Signer, message: &[u8]) -> Result<Bytes, AllocError>
    requires { HasLeaf signer.old }
    ensures ok { IfOk result (λ made. made ≡ next_signature signer.old message.now) }
    ensures short { IfOk result (λ made. length made ≤ 2508) }
    ensures next { OnOk result (signer.new ≡ one_leaf_on signer.old) }
{
    match signer.sign(&mut CalmKeeper::new(), message) {
        Ok(made) => Ok(Bytes::from_vec(made)),
        Err(SignFault::NoMemory) => Err(AllocError),
        Err(SignFault::Spent) => unreachable!(),
        Err(SignFault::KeeperFault) => unreachable!(),
    }
}

/// An exporter's address certificate, valid at each moment but the last. `AllocError` where memory runs out.
pub fn sign_address(
    signer: &mut Signer,
    exporter: PubKey,
    address: &Bytes,
) -> Result<Address, AllocError>
    requires leaf { HasLeaf signer.old }
    requires short { length address.now ≤ 64 }
    ensures ok { IfOk result (λ a. a ≡ address_by signer.old exporter address.now) }
    ensures short { IfOk result (λ a. length a.signature ≤ 2508) }
    ensures next { OnOk result (signer.new ≡ one_leaf_on signer.old) }
{
    let mut cert = Address {
        exporter,
        address: address.copy()?,
        from: 0,
        until: u64::MAX,
        signature: Bytes::new(address.allocator()),
    };
    let part = cert.signed_part()?;
    cert.signature = sign(signer, part.as_slice())?;
    Ok(cert)
}

/// A lane's certificate with its signature. `AllocError` where memory runs out.
pub fn sign_lane(signer: &mut Signer, blank: LaneCert) -> Result<LaneCert, AllocError>
    requires { HasLeaf signer.old }
    ensures ok { IfOk result (λ cert. cert ≡ lane_by signer.old blank) }
    ensures short { IfOk result (λ cert. length cert.signature ≤ 2508) }
    ensures next { OnOk result (signer.new ≡ one_leaf_on signer.old) }
{
    let mut cert = blank;
    let part = cert.signed_part()?;
    cert.signature = sign(signer, part.as_slice())?;
    Ok(cert)
}

/// A delegation with its signature. `AllocError` where memory runs out.
pub fn sign_delegation(
    alloc: Global,
    signer: &mut Signer,
    by: PubKey,
    category: Category,
    to: PubKey,
    from: u64,
    until: u64,
) -> Result<Delegation, AllocError>
    requires { HasLeaf signer.old }
    ensures ok { IfOk result (λ d. d ≡ with_signature (unsigned by category to from until) (next_signature signer.old (signed_part_of_delegation (unsigned by category to from until)))) }
    ensures short { IfOk result (λ d. length d.signature ≤ 2508) }
    ensures next { OnOk result (signer.new ≡ one_leaf_on signer.old) }
{
    let mut cert = Delegation {
        category,
        to,
        from,
        until,
        by,
        signature: Bytes::new(alloc),
    };
    let part = cert.signed_part()?;
    cert.signature = sign(signer, part.as_slice())?;
    Ok(cert)
}

//! The document's certificates, each signed by its host where a host of the document makes it.
#![tactic(auto)]

ghost use Rattle.std.specs.Prelude.{◌≡◌, ◌++◌, ◌∷◌, ◌<◌, [], map, take, length, get_or, option_map, slice_get, slice_set, IfOk, OnOk, Some, None};
ghost use Rattle.lms_state.specs.Signers.{one_leaf_on};
ghost use Rattle.ds_plan.specs.Keys.{host_keys};
ghost use Rattle.ds_plan.specs.Documents.{IsDocument};
ghost use Rattle.ds_setup.specs.Lists.{each};
ghost use Rattle.ds_setup.specs.Signed.{doc_cert, doc_certs};
ghost use Rattle.ds_boot.specs.Signing.{CanSign, delegation_of, signer_behind, signer_or_none};

use crate::signing::sign_delegation;
use ds_cert::{Cert, Delegation};
use ds_label::{Category, PubKey};
use ds_plan::{CertSpec, Doc, PlaceList};
use lms_state::Signer;
use std::alloc::{AllocError, Global};
use std::marker::Model;

/// A certificate of the document, the places of the hosts that keep it, and that of the host that signed it, if one did.
#[derive(Drop)]
pub struct KeptCert {
    pub cert: Cert,
    pub at: PlaceList,
    pub by: Option<u32>,
}

impl Model for KeptCert {
    ghost use Rattle.ds_setup.specs.Signed.{DocCert};

    ghost Value = { DocCert };

    ghost view = { λ k. record { cert = k.cert; at = k.at; by = k.by } };
}

/// The certificates of a document, in order.
pub type KeptCertList = Vec<KeptCert>;

/// The same places. `AllocError` where memory runs out.
fn copy_places(alloc: Global, places: &PlaceList) -> Result<PlaceList, AllocError>
    ensures { IfOk result (λ l. l ≡ places.now) }
{
    let mut copies = PlaceList::new(alloc);
    for place in places.as_slice() {
        copies.push(*place)?;
    }
    Ok(copies)
}

/// A delegation by the host at a place. `AllocError` where memory runs out.
fn delegation_by(
    alloc: Global,
    keys: &[PubKey],
    signer: &mut Option<Signer>,
    by: u32,
    category: Category,
    to: u32,
    from: u64,
    until: u64,
) -> Result<Delegation, AllocError>
    requires leaf { CanSign signer.old }
    requires by { by < length keys.now }
    requires to { to < length keys.now }
    ensures made { IfOk result (λ d. d ≡ delegation_of keys.now (signer_or_none signer.old) by category to from until) }
    ensures signer { OnOk result (signer.new ≡ option_map one_leaf_on signer.old) }
{
    let Some(signer) = signer else {
        unreachable!();
    };
    sign_delegation(
        alloc,
        signer,
        keys[by as usize],
        category,
        keys[to as usize],
        from,
        until,
    )
}

/// A certificate that the host at a place makes. `AllocError` where memory runs out.
fn made_cert(
    alloc: Global,
    keys: &[PubKey],
    signers: &mut [Option<Signer>],
    by: u32,
    category: Category,
    to: u32,
    from: u64,
    until: u64,
) -> Result<Cert, AllocError>
    requires there { by < length signers.old }
    requires leaf { CanSign (get_or signers.old by None) }
    requires by { by < length keys.now }
    requires to { to < length keys.now }
    ensures made { IfOk result (λ c. c ≡ Cert.Delegation (delegation_of keys.now (signer_or_none (get_or signers.old by None)) by category to from until)) }
    ensures signers { OnOk result (signers.new ≡ slice_set signers.old by (option_map one_leaf_on (get_or signers.old by None))) }
{
    let signer = &mut signers[by as usize];
    let made = delegation_by(alloc, keys, signer, by, category, to, from, until)?;
    Ok(Cert::Delegation(made))
}

/// The certificate at a place, behind those before. `AllocError` where memory runs out.
fn next_cert(
    alloc: Global,
    doc: &Doc,
    keys: &[PubKey],
    signers: &mut [Option<Signer>],
    place: usize,
    spec: &CertSpec,
) -> Result<KeptCert, AllocError>
    requires document { IsDocument doc.now }
    requires keys { keys.now ≡ host_keys doc.now.hosts }
    requires there { slice_get doc.now.certs place ≡ Some spec.now }
    requires signers { signers.old ≡ each (signer_behind (take place doc.now.certs)) doc.now.hosts }
    ensures cert { IfOk result (λ c. c ≡ doc_cert doc.now.hosts (take place doc.now.certs) spec.now) }
    ensures signers { OnOk result (signers.new ≡ each (signer_behind (take place doc.now.certs ++ spec.now ∷ [])) doc.now.hosts) }
{
    match spec {
        CertSpec::Made {
            by,
            category,
            to,
            from,
            until,
            at,
        } => Ok(KeptCert {
            cert: made_cert(alloc, keys, signers, *by, *category, *to, *from, *until)?,
            at: copy_places(alloc, at)?,
            by: Some(*by),
        }),
        CertSpec::Given { cert, at } => Ok(KeptCert {
            cert: cert.copy()?,
            at: copy_places(alloc, at)?,
            by: None,
        }),
    }
}

/// The document's certificates, which are these.
fn sign_each(
    alloc: Global,
    doc: &Doc,
    keys: &[PubKey],
    signers: &mut [Option<Signer>],
    specs: &[CertSpec],
) -> Result<KeptCertList, AllocError>
    requires document { IsDocument doc.now }
    requires specs { specs.now ≡ doc.now.certs }
    requires keys { keys.now ≡ host_keys doc.now.hosts }
    requires signers { signers.old ≡ each (signer_behind []) doc.now.hosts }
    ensures certs { IfOk result (λ certs. certs.items ≡ doc_certs doc.now.hosts doc.now.certs) }
    ensures signers { OnOk result (signers.new ≡ each (signer_behind doc.now.certs) doc.now.hosts) }
{
    let mut certs = Vec::new(alloc);
    for (place, spec) in specs.iter().enumerate() {
        certs.push(next_cert(alloc, doc, keys, signers, place, spec)?)?;
    }
    Ok(certs)
}

/// The document's certificates, in order. Each signer is then behind all that its host signs. `AllocError` where memory
/// runs out.
pub fn sign_certs(
    alloc: Global,
    doc: &Doc,
    keys: &[PubKey],
    signers: &mut [Option<Signer>],
) -> Result<KeptCertList, AllocError>
    requires document { IsDocument doc.now }
    requires keys { keys.now ≡ host_keys doc.now.hosts }
    requires signers { signers.old ≡ each (signer_behind []) doc.now.hosts }
    ensures certs { IfOk result (λ certs. certs.items ≡ doc_certs doc.now.hosts doc.now.certs) }
    ensures signers { OnOk result (signers.new ≡ each (signer_behind doc.now.certs) doc.now.hosts) }
{
    sign_each(alloc, doc, keys, signers, doc.certs.as_slice())
}

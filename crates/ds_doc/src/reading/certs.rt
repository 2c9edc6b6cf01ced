//! Certificates of a document.

ghost use Rattle.std.specs.Prelude.{◌≡◌, map, flat_map, codes, IfOk, OnOk, ◌++◌};
ghost use Rattle.hex.specs.Hex as hexes;
ghost use Rattle.ds_cert.specs.Reading.{read_cert};
ghost use Rattle.ds_plan.specs.Documents as documents;
ghost use Rattle.ds_doc.specs.Draft as drafts;
ghost use Rattle.ds_doc.specs.Places as places;
ghost use Rattle.ds_doc.specs.Seen.{seen};

use crate::draft::{DraftCert, Placed};
use crate::reading::basics::{Names, category_at, host_at, hosts_at, long_at};
use crate::spot::Spot;
use crate::text::is_address;
use ds_cert::{Address, Cert, CertFault};
use ds_plan::PartList;
use hex::FromHexError;
use std::alloc::{AllocError, Global};

/// Most bytes of a signature.
const SIGNATURE_MOST: usize = 2_508;

/// The certificates that objects say.
pub(crate) fn certs_of(
    alloc: Global,
    names: &Names,
    spots: &[Spot],
) -> Result<PartList<DraftCert>, AllocError>
    ensures { IfOk result (λ l. l ≡ flat_map (drafts.cert_of names.now) (map seen spots.now)) }
{
    let mut list = PartList::new(alloc);
    for spot in spots {
        push_cert(alloc, &mut list, names, spot)?;
    }
    Ok(list)
}

#[tactic(auto, unfolding(crate::specs::Draft::cert_of))]
fn push_cert(
    alloc: Global,
    list: &mut PartList<DraftCert>,
    names: &Names,
    spot: &Spot,
) -> Result<(), AllocError>
    ensures { OnOk result (list.new ≡ list.old ++ drafts.cert_of names.now (seen spot.now)) }
{
    if let Some(cert) = cert_by(alloc, names, spot)? {
        list.push(cert)?;
    }
    Ok(())
}

fn cert_by(alloc: Global, names: &Names, spot: &Spot) -> Result<Option<DraftCert>, AllocError>
    ensures { IfOk result (λ c. c ≡ drafts.cert_by names.now (seen spot.now) (places.member (codes "hex") (seen spot.now))) }
{
    match spot.member("hex") {
        Some(hex) => {
            let at = hosts_at(alloc, names, spot, "at")?;
            match given_cert(alloc, hex.text())? {
                Some(cert) => Ok(Some(DraftCert::Given {
                    cert: Placed {
                        at: hex.at,
                        value: cert,
                    },
                    at,
                })),
                None => Ok(None),
            }
        }
        None => Ok(Some(DraftCert::Made {
            by: host_at(alloc, names, spot, "by")?,
            category: category_at(alloc, names, spot, "cat")?,
            to: host_at(alloc, names, spot, "to")?,
            from: long_at(spot, "from", 0),
            until: long_at(spot, "until", 0),
            at: hosts_at(alloc, names, spot, "at")?,
        })),
    }
}

/// The certificate in hex.
fn given_cert(alloc: Global, text: &[u8]) -> Result<Option<Cert>, AllocError>
    ensures { IfOk result (λ c. c ≡ drafts.given_cert (hexes.decode_of text.now)) }
{
    match hex::decode(alloc, text) {
        Ok(bytes) => spelled(alloc, bytes.as_slice()),
        Err(FromHexError::OutOfMemory) => Err(AllocError),
        Err(_) => Ok(None),
    }
}

/// The certificate that the bytes spell.
fn spelled(alloc: Global, bytes: &[u8]) -> Result<Option<Cert>, AllocError>
    ensures { IfOk result (λ c. c ≡ drafts.spelled (read_cert bytes.now)) }
{
    match Cert::decode(alloc, bytes) {
        Ok(cert) => Ok(in_range(cert)),
        Err(CertFault::Malformed(_)) => Ok(None),
        Err(CertFault::NoMemory) => Err(AllocError),
    }
}

fn in_range(cert: Cert) -> Option<Cert>
    ensures { result ≡ drafts.if_in_range cert }
{
    if is_in_range(&cert) { Some(cert) } else { None }
}

/// Whether a certificate keeps what those keep that are read; they all do.
fn is_in_range(cert: &Cert) -> bool
    ensures { result ≡ documents.is_cert_in_range cert.now }
{
    match cert {
        Cert::Delegation(delegation) => delegation.signature.len() <= SIGNATURE_MOST,
        Cert::Address(address) => is_address_in_range(address),
    }
}

pub(crate) fn is_address_in_range(address: &Address) -> bool
    ensures { result ≡ documents.is_address_in_range address.now }
{
    is_address(address.address.as_slice()) && address.signature.len() <= SIGNATURE_MOST
}

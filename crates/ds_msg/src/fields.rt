//! The fields of a message, read off the front of a slice.

ghost use Rattle.std.specs.Prelude.{◌≡◌, ◌≤◌, ◌<◌, [], IfOk, length, MatchResult};
ghost use Rattle.ds_cert.specs.Fields.{Gives};
ghost use Rattle.ds_cert.specs.Reading.{read_delegation};
ghost use Rattle.ds_msg.specs.Ranges.{is_among};
ghost use Rattle.ds_msg.specs.Reading.{cert_at, certs_at, more_certs_at, payload_at, slot_at};

use crate::certs::CertBytes;
use ds_cert::{CertFault, Delegation, ReadFault, byte_of, number_of, run_of, short_of};
use ds_wire::{Bytes, get_bytes, get_u32};
use std::alloc::Global;

/// The number of a mailbox.
pub fn slot_of(bytes: &[u8]) -> Result<(u32, &[u8]), ReadFault>
    ensures { Gives (λ x. (x.0, x.1.now)) result (slot_at bytes.now) }
{
    match get_u32(bytes) {
        Ok((slot, rest)) => Ok((slot, rest)),
        Err(_) => Err(ReadFault::Left(bytes.len())),
    }
}

/// Whether the bytes spell a delegation. `NoMemory` where memory runs out.
fn spells_delegation(alloc: Global, bytes: &[u8]) -> Result<bool, ReadFault>
    ensures { MatchResult result (λ b. b ≡ Rattle.ds_msg.specs.Reading.is_read (read_delegation bytes.now)) (λ e. e ≡ ReadFault.NoMemory) }
{
    match Delegation::decode(alloc, bytes) {
        Ok(_) => Ok(true),
        Err(CertFault::Malformed(_)) => Ok(false),
        Err(CertFault::NoMemory) => Err(ReadFault::NoMemory),
    }
}

/// Whether the bytes spell a delegation that isn't among those before. `NoMemory` where memory runs out.
fn is_new_delegation(alloc: Global, before: &CertBytes, bytes: &[u8]) -> Result<bool, ReadFault>
    ensures { MatchResult result (λ b. b ≡ Rattle.ds_msg.specs.Reading.is_new_delegation before.now bytes.now) (λ e. e ≡ ReadFault.NoMemory) }
{
    if before.has(bytes) {
        return Ok(false);
    }
    spells_delegation(alloc, bytes)
}

/// A certificate that isn't among those before, behind its count.
#[tactic(auto, unfolding(crate::specs::Reading::cert_at))]
fn cert_of<'a>(
    alloc: Global,
    before: &CertBytes,
    bytes: &'a [u8],
) -> Result<(Bytes, &'a [u8]), ReadFault>
    ensures { Gives (λ x. (x.0, x.1.now)) result (cert_at before.now bytes.now) }
{
    let (count, rest) = short_of(bytes, 1, 2704)?;
    let Ok((cert, after)) = get_bytes(rest, count as usize) else {
        return Err(ReadFault::Left(rest.len()));
    };
    if !is_new_delegation(alloc, before, cert)? {
        return Err(ReadFault::Left(rest.len()));
    }
    Ok((Bytes::from_slice(alloc, cert)?, after))
}

/// That many certificates, none of them twice.
fn more_certs_of(alloc: Global, count: u8, bytes: &[u8]) -> Result<(CertBytes, &[u8]), ReadFault>
    requires { count ≤ 16 }
    ensures { Gives (λ x. (x.0, x.1.now)) result (more_certs_at count [] bytes.now) }
{
    let mut certs = CertBytes::new(alloc);
    let mut rest = bytes;
    for _ in 0..count {
        let (cert, after) = cert_of(alloc, &certs, rest)?;
        certs.push(cert)?;
        rest = after;
    }
    Ok((certs, rest))
}

/// Certificates behind their count.
#[tactic(auto, unfolding(crate::specs::Reading::certs_at))]
pub fn certs_of(alloc: Global, bytes: &[u8]) -> Result<(CertBytes, &[u8]), ReadFault>
    ensures { Gives (λ x. (x.0, x.1.now)) result (certs_at bytes.now) }
{
    let (count, rest) = byte_of(bytes, 0, 16)?;
    more_certs_of(alloc, count, rest)
}

/// A payload behind its count.
#[tactic(auto, unfolding(ds_cert::specs::Fields::counted_at))]
pub fn payload_of(alloc: Global, bytes: &[u8]) -> Result<(Bytes, &[u8]), ReadFault>
    ensures { Gives (λ x. (x.0, x.1.now)) result (payload_at bytes.now) }
{
    let (size, rest) = number_of(bytes, 0, 16384)?;
    run_of(alloc, rest, size as usize)
}

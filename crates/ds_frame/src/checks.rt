//! What is asked of a whole hello and of a whole frame.

ghost use Rattle.std.specs.Prelude.{◌≡◌, ◌≤◌, IfOk};
ghost use Rattle.ds_cert.specs.Reading.{read_lane_cert};
ghost use Rattle.ds_frame.specs.Checks.{begins_with, checked_cert, is_good, is_good_lane_cert};
ghost use Rattle.ds_frame.specs.Fields.{Finds};

use crate::cause::Cause;
use crate::item::ReadFaultOrMemory;
use ds_cert::{CertFault, LaneCert};
use ds_label::PubKey;
use lms_sig::verify;
use std::alloc::{AllocError, Global};

/// Whether the certificate's signature is good. `AllocError` where memory runs out.
fn is_good_lane_cert(lane: &LaneCert) -> Result<bool, AllocError>
    ensures { IfOk result (λ b. b ≡ is_good_lane_cert lane.now) }
{
    let good = lane.good()?;
    Ok(good)
}

/// The lane certificate that the bytes of a hello spell, whose signature is good.
pub fn checked_cert(alloc: Global, cert: &[u8]) -> Result<LaneCert, ReadFaultOrMemory>
    ensures { Finds (λ x. x) result (checked_cert (read_lane_cert cert.now)) }
{
    match LaneCert::decode(alloc, cert) {
        Ok(lane) => {
            if !is_good_lane_cert(&lane)? {
                return Err(ReadFaultOrMemory::Broken(Cause::HelloSignature, 6));
            }
            Ok(lane)
        }
        Err(CertFault::Malformed(place)) => Err(ReadFaultOrMemory::Broken(
            Cause::HelloCert,
            6 + place as usize,
        )),
        Err(CertFault::NoMemory) => Err(ReadFaultOrMemory::NoMemory),
    }
}

/// Whether a signature begins with the number.
pub fn begins_with(number: u32, signature: &[u8]) -> bool
    ensures { result ≡ begins_with number signature.now }
{
    if signature.len() < 4 {
        return false;
    }
    let bytes = number.to_be_bytes();
    let front = &signature[..4];
    front == bytes.as_slice()
}

/// Whether a signature is good under the key.
pub fn is_good(key: &PubKey, part: &[u8], signature: &[u8]) -> bool
    ensures { result ≡ is_good key.now.0 part.now signature.now }
{
    verify(&key.0, part, signature).is_ok()
}

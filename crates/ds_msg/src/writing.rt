//! The fields of a message, appended to bytes. After `AllocError`, which says that memory ran out, a part of a field may have
//! been appended.

ghost use Rattle.std.specs.Prelude.{◌≡◌, ◌≤◌, ◌++◌, length, OnOk};
ghost use Rattle.std.specs.List.{flat_map};
ghost use Rattle.ds_msg.specs.Ranges.{AreShort, PayloadFits};
ghost use Rattle.ds_msg.specs.Spelling.{spelling_of_cert_bytes, spelling_of_certs, spelling_of_payload};

use crate::certs::CertBytes;
use ds_wire::{Bytes, put_u8, put_u16, put_u32};
use std::alloc::AllocError;

/// One certificate behind its count.
#[tactic(auto, unfolding(crate::specs::Spelling::spelling_of_cert_bytes))]
fn append_cert(out: &mut Bytes, cert: &Bytes) -> Result<(), AllocError>
    requires { length cert.now ≤ 2704 }
    ensures { OnOk result (out.new ≡ out.old ++ spelling_of_cert_bytes cert.now) }
{
    put_u16(out, cert.len() as u16)?;
    out.append(cert.as_slice())?;
    Ok(())
}

/// Certificates, one after the other.
fn append_each(out: &mut Bytes, certs: &[Bytes]) -> Result<(), AllocError>
    requires { AreShort certs.now }
    ensures { OnOk result (out.new ≡ out.old ++ flat_map spelling_of_cert_bytes certs.now) }
{
    for cert in certs {
        append_cert(out, cert)?;
    }
    Ok(())
}

/// Certificates behind their count.
#[tactic(auto, unfolding(crate::specs::Spelling::spelling_of_certs))]
pub fn append_certs(out: &mut Bytes, certs: &CertBytes) -> Result<(), AllocError>
    requires { AreShort certs.now }
    ensures { OnOk result (out.new ≡ out.old ++ spelling_of_certs certs.now) }
{
    put_u8(out, certs.len() as u8)?;
    append_each(out, certs.as_slice())
}

/// A payload behind its count.
#[tactic(auto, unfolding(crate::specs::Spelling::spelling_of_payload))]
pub fn append_payload(out: &mut Bytes, payload: &Bytes) -> Result<(), AllocError>
    requires { PayloadFits payload.now }
    ensures { OnOk result (out.new ≡ out.old ++ spelling_of_payload payload.now) }
{
    put_u32(out, payload.len() as u32)?;
    out.append(payload.as_slice())?;
    Ok(())
}

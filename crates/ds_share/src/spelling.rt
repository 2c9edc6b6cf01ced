//! The spelling of what entries hold and calls hand out. After `AllocError`, which says that memory ran out, a part may have been
//! appended.

ghost use Rattle.std.specs.Prelude.{◌≡◌, ◌≤◌, ◌++◌, length, IfOk, OnOk};
ghost use Rattle.std.specs.List.{flat_map};
ghost use Rattle.std.specs.Int.{w32, w64, to_be_bytes};
ghost use Rattle.ds_cert.specs.Spelling.{kind_number, spelling_of_category};
ghost use Rattle.ds_msg.specs.Ranges.{AreShort, MessageRange, PayloadFits};
ghost use Rattle.ds_msg.specs.Spelling.{spelling_of_cert_bytes, spelling_of_certs, spelling_of_payload};
ghost use Rattle.ds_box.specs.Boxes.{IsShortMail};
ghost use Rattle.ds_share.specs.Spelling.{spelling_of_mail, spelling_of_numbers, spelling_of_waiting};

use ds_label::{Category, Kind, LocalLabel};
use ds_lane::Waiting;
use ds_msg::{CertBytes, LocalMessage};
use ds_wire::{Bytes, put_u8, put_u16, put_u32, put_u64};
use std::alloc::{AllocError, Global};

/// Numbers, one after the other.
fn append_each(out: &mut Bytes, numbers: &[u64]) -> Result<(), AllocError>
    ensures { OnOk result (out.new ≡ out.old ++ flat_map (to_be_bytes w64) numbers.now) }
{
    for number in numbers {
        put_u64(out, *number)?;
    }
    Ok(())
}

/// A label of a host's own numbers: a count, and its numbers.
#[tactic(auto, unfolding(crate::specs::Spelling::spelling_of_numbers))]
pub(crate) fn append_numbers(out: &mut Bytes, label: &LocalLabel) -> Result<(), AllocError>
    ensures { OnOk result (out.new ≡ out.old ++ spelling_of_numbers label.now) }
{
    put_u8(out, label.len() as u8)?;
    append_each(out, label.as_slice())
}

/// A payload behind its count.
#[tactic(auto, unfolding(ds_msg::specs::Spelling::spelling_of_payload))]
fn append_payload(out: &mut Bytes, payload: &Bytes) -> Result<(), AllocError>
    requires { PayloadFits payload.now }
    ensures { OnOk result (out.new ≡ out.old ++ spelling_of_payload payload.now) }
{
    put_u32(out, payload.len() as u32)?;
    out.append(payload.as_slice())?;
    Ok(())
}

/// A message inside a host.
#[tactic(auto, unfolding(crate::specs::Spelling::spelling_of_mail))]
pub(crate) fn mail_bytes(alloc: Global, message: &LocalMessage) -> Result<Bytes, AllocError>
    requires { IsShortMail message.now }
    ensures { IfOk result (λ bytes. bytes ≡ spelling_of_mail message.now) }
{
    let mut out = Bytes::new(alloc);
    out.append(&message.from.0)?;
    append_numbers(&mut out, &message.label)?;
    append_numbers(&mut out, &message.own)?;
    append_numbers(&mut out, &message.clear)?;
    append_payload(&mut out, &message.payload)?;
    Ok(out)
}

/// A number of four bytes.
pub(crate) fn number_bytes(alloc: Global, number: u32) -> Result<Bytes, AllocError>
    ensures { IfOk result (λ bytes. bytes ≡ to_be_bytes w32 number) }
{
    Bytes::from_slice(alloc, &number.to_be_bytes())
}

/// A message of a lane: the number of the process that sent it, and the message behind its count of bytes.
#[tactic(auto, unfolding(crate::specs::Spelling::spelling_of_waiting))]
pub(crate) fn append_waiting(out: &mut Bytes, waiting: &Waiting) -> Result<(), AllocError>
    requires { MessageRange waiting.now.message }
    ensures { OnOk result (out.new ≡ out.old ++ spelling_of_waiting waiting.now) }
{
    let message = waiting.message.encode()?;
    put_u32(out, waiting.from)?;
    put_u32(out, message.len() as u32)?;
    out.append(message.as_slice())?;
    Ok(())
}

/// The byte that stands for a kind.
fn kind_byte(kind: Kind) -> u8
    ensures { result ≡ kind_number kind }
{
    match kind {
        Kind::Secrecy => 0,
        Kind::Integrity => 1,
    }
}

/// A category: its creator's key, its kind and its number.
#[tactic(auto, unfolding(ds_cert::specs::Spelling::spelling_of_category))]
pub(crate) fn append_category(out: &mut Bytes, category: &Category) -> Result<(), AllocError>
    ensures { OnOk result (out.new ≡ out.old ++ spelling_of_category category.now) }
{
    out.append(&category.creator.0)?;
    put_u8(out, kind_byte(category.kind))?;
    put_u64(out, category.number)?;
    Ok(())
}

/// A certificate behind its count.
#[tactic(auto, unfolding(ds_msg::specs::Spelling::spelling_of_cert_bytes))]
fn append_cert(out: &mut Bytes, cert: &Bytes) -> Result<(), AllocError>
    requires { length cert.now ≤ 2704 }
    ensures { OnOk result (out.new ≡ out.old ++ spelling_of_cert_bytes cert.now) }
{
    put_u16(out, cert.len() as u16)?;
    out.append(cert.as_slice())?;
    Ok(())
}

/// Certificates, one after the other.
fn append_each_cert(out: &mut Bytes, certs: &[Bytes]) -> Result<(), AllocError>
    requires { AreShort certs.now }
    ensures { OnOk result (out.new ≡ out.old ++ flat_map spelling_of_cert_bytes certs.now) }
{
    for cert in certs {
        append_cert(out, cert)?;
    }
    Ok(())
}

/// Certificates behind their count.
#[tactic(auto, unfolding(ds_msg::specs::Spelling::spelling_of_certs))]
pub(crate) fn append_certs(out: &mut Bytes, certs: &CertBytes) -> Result<(), AllocError>
    requires { AreShort certs.now }
    ensures { OnOk result (out.new ≡ out.old ++ spelling_of_certs certs.now) }
{
    put_u8(out, certs.len() as u8)?;
    append_each_cert(out, certs.as_slice())
}

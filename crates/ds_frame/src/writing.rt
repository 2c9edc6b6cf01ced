//! Hellos and frames as bytes.

ghost use Rattle.std.specs.Prelude.{◌≡◌, ◌<◌, ◌^◌, ◌++◌, IfOk, OnOk, length};
ghost use Rattle.ds_cert.specs.Ranges.{LaneCertRange};
ghost use Rattle.ds_cert.specs.Spelling.{spelling_of_signature};
ghost use Rattle.ds_frame.specs.Ranges.{AreCounted, BodiesRange, FrameSignatureFits};
ghost use Rattle.ds_frame.specs.Spelling.{part_of_frame, spelling_of_bodies, spelling_of_body, spelling_of_hello};

use crate::bodies::BodyList;
use ds_cert::LaneCert;
use ds_wire::{Bytes, put_u8, put_u16, put_u32};
use std::alloc::{AllocError, Global};

/// The hello with the lane certificate. `AllocError` where memory runs out.
pub fn hello_bytes(cert: &LaneCert) -> Result<Bytes, AllocError>
    requires { LaneCertRange cert.now }
    ensures { IfOk result (λ b. b ≡ spelling_of_hello cert.now) }
{
    cert.show_fits();
    let spelled = cert.encode()?;
    let mut out = Bytes::with_room(spelled.allocator(), 6 + spelled.len())?;
    out.append(b"DSX1")?;
    put_u16(&mut out, spelled.len() as u16)?;
    out.append(spelled.as_slice())?;
    Ok(out)
}

/// A message behind its count.
#[tactic(auto, unfolding(crate::specs::Spelling::spelling_of_body))]
fn append_body(out: &mut Bytes, body: &Bytes) -> Result<(), AllocError>
    requires { length body.now < 2 ^ 32 }
    ensures { OnOk result (out.new ≡ out.old ++ spelling_of_body body.now) }
{
    put_u32(out, body.len() as u32)?;
    out.append(body.as_slice())?;
    Ok(())
}

/// Messages, one after the other, each behind its count.
fn append_bodies(out: &mut Bytes, bodies: &[Bytes]) -> Result<(), AllocError>
    requires { AreCounted bodies.now }
    ensures { OnOk result (out.new ≡ out.old ++ spelling_of_bodies bodies.now) }
{
    for body in bodies {
        append_body(out, body)?;
    }
    Ok(())
}

/// The part of a frame that its signature is over: all that stands before the signature's count. `AllocError` where memory
/// runs out.
#[tactic(auto, unfolding(crate::specs::Spelling::signed_fields))]
pub fn frame_part(alloc: Global, number: u32, bodies: &BodyList) -> Result<Bytes, AllocError>
    requires { BodiesRange bodies.now }
    ensures { IfOk result (λ b. b ≡ part_of_frame number bodies.now) }
{
    let mut body = Bytes::new(alloc);
    append_bodies(&mut body, bodies.as_slice())?;
    let mut out = Bytes::with_room(alloc, 11 + body.len())?;
    put_u8(&mut out, 4)?;
    put_u32(&mut out, number)?;
    put_u16(&mut out, bodies.len() as u16)?;
    put_u32(&mut out, body.len() as u32)?;
    out.append(body.as_slice())?;
    Ok(out)
}

/// The frame with this signed part and signature. `AllocError` where memory runs out.
#[tactic(auto, unfolding(ds_cert::specs::Spelling::spelling_of_signature))]
pub fn frame_bytes(alloc: Global, part: &[u8], signature: &[u8]) -> Result<Bytes, AllocError>
    requires { FrameSignatureFits signature.now }
    ensures { IfOk result (λ b. b ≡ part.now ++ spelling_of_signature signature.now) }
{
    let mut out = Bytes::with_room(alloc, part.len() + 2 + signature.len())?;
    out.append(part)?;
    put_u16(&mut out, signature.len() as u16)?;
    out.append(signature)?;
    Ok(out)
}

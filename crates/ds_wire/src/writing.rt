//! Numbers appended to bytes.

ghost use Rattle.std.specs.Prelude.{◌≡◌, ◌++◌, OnOk, OnErr};
ghost use Rattle.std.specs.Int.{w8, w16, w32, w64, to_be_bytes};

use crate::bytes::Bytes;
use std::alloc::AllocError;

/// Appends one byte. After `AllocError`, which says that memory ran out, nothing changed.
pub fn put_u8(out: &mut Bytes, value: u8) -> Result<(), AllocError>
    ensures ok { OnOk result (out.new ≡ out.old ++ to_be_bytes w8 value) }
    ensures err { OnErr result (out.new ≡ out.old) }
{
    out.append(&[value])
}

/// Appends two bytes, big-endian. After `AllocError`, which says that memory ran out, nothing changed.
pub fn put_u16(out: &mut Bytes, value: u16) -> Result<(), AllocError>
    ensures ok { OnOk result (out.new ≡ out.old ++ to_be_bytes w16 value) }
    ensures err { OnErr result (out.new ≡ out.old) }
{
    out.append(&value.to_be_bytes())
}

/// Appends four bytes, big-endian. After `AllocError`, which says that memory ran out, nothing changed.
pub fn put_u32(out: &mut Bytes, value: u32) -> Result<(), AllocError>
    ensures ok { OnOk result (out.new ≡ out.old ++ to_be_bytes w32 value) }
    ensures err { OnErr result (out.new ≡ out.old) }
{
    out.append(&value.to_be_bytes())
}

/// Appends eight bytes, big-endian. After `AllocError`, which says that memory ran out, nothing changed.
pub fn put_u64(out: &mut Bytes, value: u64) -> Result<(), AllocError>
    ensures ok { OnOk result (out.new ≡ out.old ++ to_be_bytes w64 value) }
    ensures err { OnErr result (out.new ≡ out.old) }
{
    out.append(&value.to_be_bytes())
}

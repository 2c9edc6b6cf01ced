//! The fields of certificates, appended to bytes. After `AllocError`, which says that memory ran out, a part of a field may
//! have been appended.

ghost use Rattle.std.specs.Prelude.{◌≡◌, ◌≤◌, ◌++◌, length, OnOk};
ghost use Rattle.std.specs.List.{flat_map};
ghost use Rattle.ds_cert.specs.Ranges.{SignatureFits};
ghost use Rattle.ds_cert.specs.Spelling.{kind_number, spelling_of_address_text, spelling_of_category, spelling_of_label, spelling_of_signature};

use ds_label::{Category, Kind, Label};
use ds_wire::{Bytes, put_u8, put_u16, put_u64};
use std::alloc::AllocError;

/// The byte that stands for a kind.
pub fn kind_number(kind: Kind) -> u8
    ensures { result ≡ Rattle.ds_cert.specs.Spelling.kind_number kind }
{
    match kind {
        Kind::Secrecy => 0,
        Kind::Integrity => 1,
    }
}

/// A category.
#[tactic(auto, unfolding(crate::specs::Spelling::spelling_of_category))]
pub fn append_category(out: &mut Bytes, category: &Category) -> Result<(), AllocError>
    ensures { OnOk result (out.new ≡ out.old ++ spelling_of_category category.now) }
{
    out.append(&category.creator.0)?;
    put_u8(out, kind_number(category.kind))?;
    put_u64(out, category.number)?;
    Ok(())
}

/// Categories, one after the other.
fn append_members(out: &mut Bytes, members: &[Category]) -> Result<(), AllocError>
    ensures { OnOk result (out.new ≡ out.old ++ flat_map spelling_of_category members.now) }
{
    for member in members {
        append_category(out, member)?;
    }
    Ok(())
}

/// A label: a count, and its categories of 65 bytes each.
#[tactic(auto, unfolding(crate::specs::Spelling::spelling_of_label))]
pub fn append_label(out: &mut Bytes, label: &Label) -> Result<(), AllocError>
    ensures { OnOk result (out.new ≡ out.old ++ spelling_of_label label.now) }
{
    put_u8(out, label.len() as u8)?;
    append_members(out, label.as_slice())
}

/// The text of an address behind its count.
#[tactic(auto, unfolding(crate::specs::Spelling::spelling_of_address_text))]
pub fn append_address_text(out: &mut Bytes, text: &Bytes) -> Result<(), AllocError>
    requires { length text.now ≤ 64 }
    ensures { OnOk result (out.new ≡ out.old ++ spelling_of_address_text text.now) }
{
    put_u8(out, text.len() as u8)?;
    out.append(text.as_slice())?;
    Ok(())
}

/// A signature behind its count.
#[tactic(auto, unfolding(crate::specs::Spelling::spelling_of_signature))]
pub fn append_signature(out: &mut Bytes, signature: &Bytes) -> Result<(), AllocError>
    requires { SignatureFits signature.now }
    ensures { OnOk result (out.new ≡ out.old ++ spelling_of_signature signature.now) }
{
    put_u16(out, signature.len() as u16)?;
    out.append(signature.as_slice())?;
    Ok(())
}

//! Labels as bytes.

ghost use Rattle.std.specs.Prelude.{◌≡◌, ◌++◌, ◌≤◌, ℕ, List, None, Ok, length, IfOk, OnOk, OnErr};
ghost use Rattle.ds_label.specs.declared.category.Category.{Category};
ghost use Rattle.ds_cert.specs.Fields.{Answers, Gives};
ghost use Rattle.ds_cert.specs.Ranges.{LabelFits};
ghost use Rattle.ds_cert.specs.Reading.{label_at, members_at, read_label};
ghost use Rattle.ds_cert.specs.Spelling.{spelling_of_label};

use crate::fault::{CertFault, ReadFault, at_place};
use crate::fields::{byte_of, category_of};
use crate::writing::append_label;
use ds_label::Label;
use ds_wire::Bytes;
use std::alloc::{AllocError, Global};

/// That many categories, each above the one before it.
fn members_of(alloc: Global, count: u8, bytes: &[u8]) -> Result<(Label, &[u8]), ReadFault>
    requires { count ≤ 64 }
    ensures { Gives (λ x. (x.0, x.1.now)) result (members_at count None bytes.now) }
{
    let mut label = Label::new(alloc);
    let mut rest = bytes;
    for _ in 0..count {
        let (member, after) = category_of(rest)?;
        if !label.goes_last(&member) {
            return Err(ReadFault::Left(rest.len()));
        }
        label.push_last(member)?;
        rest = after;
    }
    Ok((label, rest))
}

/// A label, and the rest. `Left` comes exactly where the bytes don't begin with one, with the number of bytes from the count or
/// the category at fault on; `NoMemory` where memory runs out.
#[tactic(auto, unfolding(crate::specs::Reading::label_at))]
pub fn label_of(alloc: Global, bytes: &[u8]) -> Result<(Label, &[u8]), ReadFault>
    ensures { Gives (λ x. (x.0, x.1.now)) result (label_at bytes.now) }
{
    let (count, rest) = byte_of(bytes, 0, 64)?;
    members_of(alloc, count, rest)
}

/// The label at the front of the input, or the place of the first fault.
#[tactic(auto, unfolding(crate::specs::Reading::read_label))]
fn read(alloc: Global, input: &[u8]) -> Result<(Label, &[u8]), CertFault>
    ensures { Answers (λ x. (x.0, x.1.now)) result (read_label input.now) }
{
    match label_of(alloc, input) {
        Ok((label, rest)) => Ok((label, rest)),
        Err(fault) => Err(at_place(input.len(), fault)),
    }
}

/// The label whose spelling the input begins with, and the rest. `Malformed` comes exactly where it begins with none, with the
/// place in the input: that of the count, of a category that is short, has an unknown kind, or isn't above the one before.
pub fn get_label(alloc: Global, input: &[u8]) -> Result<(Label, &[u8]), CertFault>
    // What is read is spelled so.
    ensures found { IfOk result (λ x. input.now ≡ spelling_of_label x.0 ++ x.1.now) }
    // What is spelled so is read, whatever follows, unless memory runs out.
    ensures only { (members : List Category) (rest : List ℕ) → LabelFits members → input.now ≡ spelling_of_label members ++ rest → Answers {Y = List Category × List ℕ} (λ x. (x.0, x.1.now)) result (Ok (members, rest)) }
    // Which fault it is.
    ensures exact { Answers (λ x. (x.0, x.1.now)) result (read_label input.now) }
{
    read(alloc, input)
}

/// Appends the label's spelling: a count, and its categories of 65 bytes each. After `AllocError`, which says that memory ran
/// out, nothing changed.
pub fn put_label(out: &mut Bytes, label: &Label) -> Result<(), AllocError>
    ensures ok { OnOk result (out.new ≡ out.old ++ spelling_of_label label.now) }
    ensures err { OnErr result (out.new ≡ out.old) }
{
    let mut piece = Bytes::with_room(out.allocator(), 1 + 65 * label.len())?;
    append_label(&mut piece, label)?;
    out.append(piece.as_slice())
}

//! Operations of scripts.

ghost use Rattle.std.specs.Prelude.{◌≡◌, map, take, IfOk};
ghost use Rattle.ds_doc.specs.Draft as drafts;
ghost use Rattle.ds_doc.specs.Seen.{seen};

use crate::draft::DraftOp;
use crate::reading::basics::{
    Names, kind, label_of, long, placed_category, placed_host, placed_word, register, word,
};
use crate::spot::Spot;
use crate::text::is_word;
use ds_plan::PartList;
use ds_wire::Bytes;
use std::alloc::{AllocError, Global};

/// Most bytes of a text.
const TEXT_MOST: usize = 16_384;

/// The operations of a script.
pub(crate) fn operations(
    alloc: Global,
    names: &Names,
    spots: &[Spot],
) -> Result<PartList<DraftOp>, AllocError>
    ensures { IfOk result (λ l. l ≡ map (drafts.operation names.now) (map seen spots.now)) }
{
    let mut list = PartList::new(alloc);
    for spot in spots {
        list.push(operation(alloc, names, spot)?)?;
    }
    Ok(list)
}

#[tactic(auto, unfolding(crate::specs::Draft::operation))]
fn operation(alloc: Global, names: &Names, spot: &Spot) -> Result<DraftOp, AllocError>
    ensures { IfOk result (λ o. o ≡ drafts.operation names.now (seen spot.now)) }
{
    let items = spot.items(alloc)?;
    by_word(alloc, names, items.as_slice())
}

fn by_word(alloc: Global, names: &Names, items: &[Spot]) -> Result<DraftOp, AllocError>
    ensures { IfOk result (λ o. o ≡ drafts.by_word names.now (map seen items.now)) }
{
    match items {
        [word, arguments @ ..] => op_of(alloc, names, word.text(), arguments),
        [] => Ok(DraftOp::Print { reg: 0 }),
    }
}

fn op_of(
    alloc: Global,
    names: &Names,
    name: &[u8],
    arguments: &[Spot],
) -> Result<DraftOp, AllocError>
    ensures { IfOk result (λ o. o ≡ drafts.op_of names.now name.now (map seen arguments.now)) }
{
    match arguments {
        [first] => of_one(alloc, names, name, first),
        [first, second] => of_two(alloc, name, first, second),
        [first, second, third] => Ok(of_three(name, first, second, third)),
        [reg, category, to, from, until] => of_five(alloc, names, reg, category, to, from, until),
        [host, slot, reg, label, own, clear] => of_six(
            alloc, names, host, slot, reg, label, own, clear,
        ),
        [] | [_, _, _, _] | [_, _, _, _, _, _, _, ..] => Ok(DraftOp::Print { reg: 0 }),
    }
}

fn of_five(
    alloc: Global,
    names: &Names,
    reg: &Spot,
    category: &Spot,
    to: &Spot,
    from: &Spot,
    until: &Spot,
) -> Result<DraftOp, AllocError>
    ensures { IfOk result (λ o. o ≡ drafts.of_five names.now (seen reg.now) (seen category.now) (seen to.now) (seen from.now) (seen until.now)) }
{
    Ok(DraftOp::Delegate {
        reg: register(reg),
        category: placed_category(alloc, names, category)?,
        to: placed_host(alloc, names, to)?,
        from: long(from),
        until: long(until),
    })
}

fn of_six(
    alloc: Global,
    names: &Names,
    host: &Spot,
    slot: &Spot,
    reg: &Spot,
    label: &Spot,
    own: &Spot,
    clear: &Spot,
) -> Result<DraftOp, AllocError>
    ensures { IfOk result (λ o. o ≡ drafts.of_six names.now (seen host.now) (seen slot.now) (seen reg.now) (seen label.now) (seen own.now) (seen clear.now)) }
{
    Ok(DraftOp::Send {
        host: placed_host(alloc, names, host)?,
        slot: word(slot),
        reg: register(reg),
        label: label_of(alloc, names, label)?,
        own: label_of(alloc, names, own)?,
        clear: label_of(alloc, names, clear)?,
    })
}

fn of_one(alloc: Global, names: &Names, name: &[u8], first: &Spot) -> Result<DraftOp, AllocError>
    ensures { IfOk result (λ o. o ≡ drafts.of_one names.now name.now (seen first.now)) }
{
    if is_word(name, "jump") {
        Ok(DraftOp::Jump {
            to: placed_word(first),
        })
    } else if is_word(name, "print") {
        Ok(DraftOp::Print {
            reg: register(first),
        })
    } else if is_word(name, "label") {
        Ok(DraftOp::SetLabel {
            label: label_of(alloc, names, first)?,
        })
    } else if is_word(name, "newcat") {
        Ok(DraftOp::NewCat { kind: kind(first) })
    } else if is_word(name, "map") {
        Ok(DraftOp::Map {
            category: placed_category(alloc, names, first)?,
        })
    } else {
        Ok(DraftOp::Import {
            reg: register(first),
        })
    }
}

/// The first bytes of a text.
fn short_text(text: &[u8], most: usize) -> &[u8]
    ensures { result.now ≡ take most text.now }
{
    if text.len() <= most {
        text
    } else {
        &text[..most]
    }
}

fn of_two(alloc: Global, name: &[u8], first: &Spot, second: &Spot) -> Result<DraftOp, AllocError>
    ensures { IfOk result (λ o. o ≡ drafts.of_two name.now (seen first.now) (seen second.now)) }
{
    if is_word(name, "set") {
        Ok(DraftOp::Set {
            reg: register(first),
            text: Bytes::from_slice(alloc, short_text(second.text(), TEXT_MOST))?,
        })
    } else {
        Ok(DraftOp::Take {
            reg: register(first),
            slot: word(second),
        })
    }
}

fn of_three(name: &[u8], first: &Spot, second: &Spot, third: &Spot) -> DraftOp
    ensures { result ≡ drafts.of_three name.now (seen first.now) (seen second.now) (seen third.now) }
{
    if is_word(name, "join") {
        DraftOp::Join {
            reg: register(first),
            left: register(second),
            right: register(third),
        }
    } else {
        DraftOp::IfEq {
            left: register(first),
            right: register(second),
            to: placed_word(third),
        }
    }
}

//! Labels over categories and over a host's own numbers, and the rules.

use crate::names::Names;
use crate::row::Row;
use ds_label::{Category, Kind, Label, LabelFault, LocalLabel, PubKey, Rule};

/// Says a category: the first byte of its creator's key, its kind and its number.
fn say_category(row: &mut Row<'_>, member: &Category) {
    row.say_number(member.creator.0[0] as u64);
    row.say(match member.kind {
        Kind::Secrecy => "s",
        Kind::Integrity => "i",
    });
    row.say_number(member.number);
    row.say(";");
}

fn say_label(row: &mut Row<'_>, label: &Label) {
    for member in label.as_slice() {
        say_category(row, member);
    }
}

/// Says what an insertion answered, and how many members there are then.
fn say_inserted(row: &mut Row<'_>, inserted: Result<(), LabelFault>, size: usize) {
    match inserted {
        Ok(()) => row.say("taken"),
        Err(LabelFault::TooMany) => row.say("TooMany"),
        Err(LabelFault::NoMemory) => row.full(),
    }
    row.say_number(size as u64);
}

/// So many categories, the highest first, and then one more.
fn fills(row: &mut Row<'_>, count: u32, member: Category) {
    let mut label = Label::new(row.alloc);
    for place in 0..count {
        let number = (count - place) as u64;
        let creator = PubKey([3; 56]);
        let _ = label.insert(Category {
            creator,
            kind: Kind::Secrecy,
            number,
        });
    }
    let inserted = label.insert(member);
    say_inserted(row, inserted, label.len());
}

/// The same over numbers.
fn number_fills(row: &mut Row<'_>, count: u32, member: u64) {
    let mut label = LocalLabel::new(row.alloc);
    for place in 0..count {
        let _ = label.insert((count - place) as u64);
    }
    let inserted = label.insert(member);
    say_inserted(row, inserted, label.len());
}

/// The two joined.
fn say_union(row: &mut Row<'_>, one: &LocalLabel, other: &LocalLabel) {
    let Ok(mut room) = Vec::with_capacity(row.alloc, 64) else {
        return row.full();
    };
    if !one.union_into(other, &mut room) {
        row.say("TooMany");
    }
    let label = row.local_of(&room);
    row.say_local(&label);
}

/// Each rule's number and name; those that name a category name this one.
fn say_rules(row: &mut Row<'_>, named: Category) {
    for rule in [
        Rule::NotFlow,
        Rule::GrantNotOwned,
        Rule::ClearNotHeld,
        Rule::NoLane,
        Rule::NoAddress,
        Rule::PeerNotTrusted(named),
        Rule::LaneFull,
        Rule::LaneLapsed,
        Rule::WrongHost,
        Rule::WrongLabel,
        Rule::SenderNotTrusted(named),
        Rule::NotKnown(named),
        Rule::NoBox,
        Rule::NotFlowToBox,
        Rule::BoxFull,
        Rule::NotFlowToTaker,
        Rule::LabelRefused,
        Rule::NotPublic,
        Rule::NotHeld,
        Rule::KeySpent,
        Rule::BadCert,
        Rule::StoreFull,
        Rule::TableFull,
        Rule::TooLong,
        Rule::TooMany,
        Rule::Stale,
    ] {
        row.say_number(rule.number() as u64);
        row.say(rule.name());
    }
}

/// Two labels.
fn named_two(row: &mut Row<'_>, names: &Names) {
    let one = row.label(names, 2);
    let other = row.label(names, 3);
    if row.is(1, "flows") {
        row.say_if(one.flows(&other));
    } else {
        match one.minus(&other) {
            Ok(others) => say_label(row, &others),
            Err(_) => row.full(),
        }
    }
}

/// Two labels under an ownership.
fn named_under(row: &mut Row<'_>, names: &Names) {
    let one = row.label(names, 2);
    let other = row.label(names, 3);
    let own = row.label(names, 5);
    row.say_if(one.flows_under(&other, &own));
}

/// A label and a category.
fn named_one(row: &mut Row<'_>, names: &Names) {
    let all = row.label(names, 2);
    if row.is(1, "has") {
        let member = row.category(names, 3);
        row.say_if(all.contains(&member));
    } else {
        match all.copy() {
            Ok(copied) => say_label(row, &copied),
            Err(_) => row.full(),
        }
    }
}

/// Two labels over numbers.
fn numbered_two(row: &mut Row<'_>) {
    let one = row.local(2);
    let other = row.local(3);
    if row.is(1, "flows") {
        row.say_if(one.flows(&other));
    } else if row.is(1, "union") {
        say_union(row, &one, &other);
    } else {
        match one.minus(&other) {
            Ok(others) => row.say_local(&others),
            Err(_) => row.full(),
        }
    }
}

/// Two labels over numbers under an ownership.
fn numbered_under(row: &mut Row<'_>) {
    let one = row.local(2);
    let other = row.local(3);
    let own = row.local(5);
    row.say_if(one.flows_under(&other, &own));
}

/// A label over numbers and a number.
fn numbered_one(row: &mut Row<'_>) {
    let all = row.local(2);
    if row.is(1, "has") {
        let member = row.number(3);
        row.say_if(all.contains(member));
    } else {
        match all.copy() {
            Ok(copied) => row.say_local(&copied),
            Err(_) => row.full(),
        }
    }
}

/// `label OPERATION ..` over categories, `numbers OPERATION ..` over numbers, of which an even one is for secrecy, an odd one
/// for integrity. Operations are `of A`, `has A MEMBER`, `flows A B`, `flows A B under OWN`, `minus A B`, `fills N MEMBER`.
pub(crate) fn row(row: &mut Row<'_>, names: &Names) {
    if row.fits("label fills _ _") {
        let (count, member) = (row.small(2, 100), row.category(names, 3));
        fills(row, count, member);
        return;
    }
    if row.fits("label of _") || row.fits("label has _ _") {
        named_one(row, names);
        return;
    }
    if row.fits("label _ _ _") {
        named_two(row, names);
        return;
    }
    if row.fits("label flows _ _ under _") {
        named_under(row, names);
        return;
    }
    if row.fits("numbers fills _ _") {
        let (count, member) = (row.small(2, 100), row.number(3));
        number_fills(row, count, member);
        return;
    }
    if row.fits("numbers of _") || row.fits("numbers has _ _") {
        numbered_one(row);
        return;
    }
    if row.fits("numbers _ _ _") {
        numbered_two(row);
        return;
    }
    if row.fits("numbers flows _ _ under _") {
        numbered_under(row);
        return;
    }
    if row.fits("rules _") {
        let named = row.category(names, 1);
        say_rules(row, named);
        return;
    }
    row.bad();
}

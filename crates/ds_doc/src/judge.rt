//! Whether each value has its form and stays in its limits: codes 2 to 5.

ghost use Rattle.std.specs.Prelude.{◌≡◌, ◌==◌, ◌<◌, ◌+◌, drop, length, map, flat_map, nat_le, option_map, IfOk, OnOk, Some, string_bytes};
ghost use Rattle.serde_json.specs.Data.{array, object as object_data};
ghost use Rattle.std.specs.List.{list_all, list_any};
ghost use Rattle.std.specs.BTreeMap.{keys};
ghost use Rattle.hex.specs.Hex as hexes;
ghost use Rattle.serde_json.specs.View.{view, items_view, members_view};
ghost use Rattle.ds_cert.specs.Reading.{read_cert};
ghost use Rattle.ds_doc.specs.Places.{◌⊕◌, same_text, or_default, size as count_of, items_size as items_count, members_size as members_count};
ghost use Rattle.ds_doc.specs.Alike.{AreAlike};
ghost use Rattle.ds_doc.specs.Shapes as shapes;
ghost use Rattle.ds_doc.specs.Shapes.{least};
ghost use Rattle.ds_doc.specs.declared.form.Form.TheVariants as forms;

use crate::fault::{Fault, lesser, unless};
use crate::form::{Form, Listed, Most, Object, Single, Worded};
use crate::size::{items_size, size};
use crate::text::{category_of, is_address, is_name, is_word, kind_of, register_of};
use ds_cert::{Cert, CertFault};
use hex::FromHexError;
use serde_json::{Map, Value};
use std::alloc::{AllocError, Global};
use std::collections::BTreeSet;

/// An object lacks a member.
const LACKS: u8 = 2;

/// An object has a member that is none of its form.
const STRANGE: u8 = 3;

/// A value hasn't its form.
const MISSHAPEN: u8 = 4;

/// A value isn't in its limits.
const BEYOND: u8 = 5;

/// Most bytes of a text.
const TEXT_MOST: usize = 16_384;

/// Hex digits of a seed.
const SEED_DIGITS: usize = 64;

/// Hex digits of a key.
const KEY_DIGITS: usize = 112;

/// What judging a value found, and where the next value stands.
#[derive(Clone, Copy)]
pub(crate) struct Judged {
    /// The least fault of the value and what is in it, with codes 2 to 5.
    pub(crate) fault: Option<Fault>,
    /// The place behind the value, where the fault isn't of the least code; else the judge doesn't look on.
    pub(crate) next: u32,
}

/// Whether it is of the least code, so that none behind it comes before it.
fn is_least(fault: Option<Fault>) -> bool
    ensures { result ≡ shapes.is_least fault }
{
    match fault {
        Some(fault) => fault.code <= LACKS,
        None => false,
    }
}

/// A value hasn't its form.
fn misshapen(at: u32, value: &Value) -> Judged
    ensures { shapes.Tells result (shapes.fault 4 at) (at ⊕ count_of (view value.now)) }
{
    Judged {
        fault: unless(false, MISSHAPEN, at),
        next: at.saturating_add(size(value)),
    }
}

/// The value in this list that hasn't its form stands there.
fn misshapen_in(there: u32, at: u32, items: &Vec<Value>) -> Judged
    ensures { shapes.Tells result (shapes.fault 4 there) (at ⊕ items_count 1 (items_view items.now.items)) }
{
    Judged {
        fault: unless(false, MISSHAPEN, there),
        next: at.saturating_add(items_size(items)),
    }
}

/// The least fault of a value and what is in it, and the place behind it. `AllocError` where memory runs out.
#[tactic(auto, using(crate::proofs::Least::least_append, crate::proofs::Least::least_more, crate::proofs::Least::lesser_none, crate::proofs::Items::listed_view, crate::proofs::Items::listed_length))]
#[cycle(judge)]
pub(crate) fn judge(alloc: Global, form: Form, at: u32, value: &Value) -> Result<Judged, AllocError>
    ensures { IfOk result (λ j. shapes.Tells j (shapes.judged form at (view value.now)) (at ⊕ count_of (view value.now))) }
{
    match form {
        Form::Single(single) => Ok(Judged {
            fault: single_fault(alloc, single, at, value)?,
            next: at.saturating_add(size(value)),
        }),
        Form::Listed(listed) => match value {
            Value::Array(items) => judge_items(alloc, listed, at, items),
            _ => Ok(misshapen(at, value)),
        },
        Form::Object(object) => match value {
            Value::Object(members) => judge_members(alloc, object, at, members),
            _ => Ok(misshapen(at, value)),
        },
        Form::Worded(worded) => match value {
            Value::Array(items) => judge_words(alloc, worded, at, items),
            _ => Ok(misshapen(at, value)),
        },
    }
}

#[tactic(auto, using(crate::proofs::Least::least_append, crate::proofs::Least::least_more, crate::proofs::Least::lesser_none, crate::proofs::Items::listed_view, crate::proofs::Items::listed_length))]
#[cycle(judge)]
fn judge_items(
    alloc: Global,
    listed: Listed,
    at: u32,
    items: &Vec<Value>,
) -> Result<Judged, AllocError>
    ensures { IfOk result (λ j. shapes.Tells j (shapes.judged (forms.Listed listed) at (array (items_view items.now.items)))
        (at ⊕ items_count 1 (items_view items.now.items))) }
{
    let beyond = unless(is_within(alloc, listed.most(), items)?, BEYOND, at);
    let found = judge_all(alloc, listed.item(), at.saturating_add(1), items)?;
    Ok(Judged {
        fault: lesser(beyond, found.fault),
        next: found.next,
    })
}

/// The least fault of items of one form, the first of them at that place, and the place behind them.
#[tactic(auto, using(crate::proofs::Least::least_more, crate::proofs::Least::lesser_none))]
#[cycle(judge)]
fn judge_all(alloc: Global, form: Form, at: u32, items: &Vec<Value>) -> Result<Judged, AllocError>
    ensures { IfOk result (λ j. shapes.Tells j (shapes.judged_items form at (items_view items.now.items)) (items_count at (items_view items.now.items))) }
{
    let mut found = None;
    let mut place = at;
    for item in items {
        let judged = judge(alloc, form, place, item)?;
        found = lesser(found, judged.fault);
        if is_least(judged.fault) {
            return Ok(Judged {
                fault: found,
                next: place,
            });
        }
        place = judged.next;
    }
    Ok(Judged {
        fault: found,
        next: place,
    })
}

/// What judging the member of this form found, of no form where there is no such member.
#[cycle(judge)]
fn judge_member(
    alloc: Global,
    form: Option<Form>,
    at: u32,
    member: &Value,
) -> Result<Judged, AllocError>
    ensures { IfOk result (λ j. shapes.Tells j (or_default (shapes.fault 3 at) (λ form. shapes.judged form at (view member.now)) form)
        (at ⊕ count_of (view member.now))) }
{
    match form {
        Some(form) => judge(alloc, form, at, member),
        None => Ok(Judged {
            fault: unless(false, STRANGE, at),
            next: at.saturating_add(size(member)),
        }),
    }
}

#[tactic(auto, using(crate::proofs::Least::least_append, crate::proofs::Least::least_more, crate::proofs::Least::lesser_none, crate::proofs::Items::listed_view, crate::proofs::Items::listed_length))]
#[cycle(judge)]
fn judge_members(
    alloc: Global,
    object: Object,
    at: u32,
    members: &Map<String, Value>,
) -> Result<Judged, AllocError>
    ensures { IfOk result (λ j. shapes.Tells j (shapes.judged (forms.Object object) at (object_data (members_view members.now.entries)))
        (at ⊕ members_count 1 (members_view members.now.entries))) }
{
    let mut found = whole_fault(object, at, members);
    if is_least(found) {
        return Ok(Judged {
            fault: found,
            next: at,
        });
    }
    let mut place = at.saturating_add(1);
    for (name, member) in members.iter() {
        let judged = judge_member(alloc, object.member(name.as_str()), place, member)?;
        found = lesser(found, judged.fault);
        if is_least(judged.fault) {
            return Ok(Judged {
                fault: found,
                next: place,
            });
        }
        place = judged.next;
    }
    Ok(Judged {
        fault: found,
        next: place,
    })
}

#[tactic(auto, using(crate::proofs::Least::least_append, crate::proofs::Least::least_more, crate::proofs::Least::lesser_none, crate::proofs::Items::listed_view, crate::proofs::Items::listed_length))]
#[cycle(judge)]
fn judge_words(
    alloc: Global,
    worded: Worded,
    at: u32,
    items: &Vec<Value>,
) -> Result<Judged, AllocError>
    ensures { IfOk result (λ j. shapes.Tells j (shapes.judged (forms.Worded worded) at (array (items_view items.now.items)))
        (at ⊕ items_count 1 (items_view items.now.items))) }
{
    let Some(word) = items.first() else {
        return Ok(misshapen_in(at, at, items));
    };
    let place = at.saturating_add(1);
    let Some(forms) = arguments(worded, word) else {
        return Ok(misshapen_in(place, at, items));
    };
    if !is_count(items, forms) {
        return Ok(misshapen_in(at, at, items));
    }
    judge_each(alloc, forms, place.saturating_add(size(word)), items)
}

/// The least fault of what stands behind the word, and the place behind that.
#[tactic(auto, using(crate::proofs::Least::least_append, crate::proofs::Least::least_more, crate::proofs::Least::lesser_none))]
#[cycle(judge)]
fn judge_each(
    alloc: Global,
    forms: &[Form],
    at: u32,
    items: &Vec<Value>,
) -> Result<Judged, AllocError>
    requires { length items.now.items ≡ length forms.now + 1 }
    ensures { IfOk result (λ j. shapes.Tells j (shapes.judged_each forms.now at (items_view (drop 1 items.now.items)))
        (items_count at (items_view (drop 1 items.now.items)))) }
{
    let mut found = None;
    let mut place = at;
    for index in 0..forms.len() {
        let judged = judge(alloc, forms[index], place, &items[index + 1])?;
        found = lesser(found, judged.fault);
        if is_least(judged.fault) {
            return Ok(Judged {
                fault: found,
                next: place,
            });
        }
        place = judged.next;
    }
    Ok(Judged {
        fault: found,
        next: place,
    })
}

/// Whether so many values stand behind the word as there are forms.
fn is_count(items: &[Value], forms: &[Form]) -> bool
    requires { 0 < length items.now }
    ensures { result ≡ (length (drop 1 items.now) == length forms.now) }
{
    items.len() - 1 == forms.len()
}

/// The forms of what stands behind a word; none where it is no word of these.
fn arguments(worded: Worded, word: &Value) -> Option<&'static [Form]>
    ensures { option_map (λ a. a.now) result ≡ shapes.word_arguments worded (view word.now) }
{
    worded.arguments(word.as_str()?)
}

/// Whether the list is no longer than it may be.
fn is_within(alloc: Global, most: Most, items: &[Value]) -> Result<bool, AllocError>
    ensures { IfOk result (λ b. b ≡ shapes.is_within most (map view items.now)) }
{
    match most {
        Most::Any => Ok(true),
        Most::Items(count) => Ok(items.len() <= count),
        Most::Different(count) => has_few_texts(alloc, count, items),
    }
}

/// Whether the items are at most so many different texts.
#[tactic(auto, using(crate::proofs::Different::joined, crate::proofs::Different::too_long))]
fn has_few_texts(alloc: Global, most: usize, items: &[Value]) -> Result<bool, AllocError>
    ensures { IfOk result (λ b. b ≡ nat_le (length (shapes.different (flat_map shapes.text_of (map view items.now)))) most) }
{
    if items.len() <= most {
        return Ok(true);
    }
    let mut texts: Vec<&str> = Vec::new(alloc);
    let mut known: BTreeSet<&str> = BTreeSet::new(alloc);
    for item in items {
        if texts.len() > most {
            return Ok(false);
        }
        add_text(&mut texts, &mut known, item)?;
    }
    Ok(texts.len() <= most)
}

/// Appends the text that a value is, unless it is there. The set finds the texts that are there.
fn add_text<'v>(
    texts: &mut Vec<&'v str>,
    known: &mut BTreeSet<&'v str>,
    item: &'v Value,
) -> Result<(), AllocError>
    requires { AreAlike (map (λ t. t.now) known.old.keys) (map (λ t. t.now) texts.old.items) }
    ensures texts { OnOk result (map (λ t. t.now) texts.new.items ≡ shapes.different_from (map (λ t. t.now) texts.old.items) (shapes.text_of (view item.now))) }
    ensures known { OnOk result (AreAlike (map (λ t. t.now) known.new.keys) (map (λ t. t.now) texts.new.items)) }
{
    if let Some(text) = item.as_str() {
        if known.insert(text)? {
            texts.push(text)?;
        }
    }
    Ok(())
}

fn has_key(members: &Map<String, Value>, name: &str) -> bool
    ensures { result ≡ list_any (λ k. same_text (string_bytes k) name.now) (keys members.now) }
{
    members.keys().any(|key| key.as_str() == name)
}

/// Whether there is a member of that name.
#[tactic(auto, using(crate::proofs::Members::has_key))]
pub(crate) fn has(members: &Map<String, Value>, name: &str) -> bool
    ensures { result ≡ shapes.has (members_view members.now.entries) name.now }
{
    has_key(members, name)
}

fn has_each(members: &Map<String, Value>, names: &[&str]) -> bool
    ensures { result ≡ list_all (λ n. shapes.has (members_view members.now.entries) n.now) names.now }
{
    names.iter().all(|name| has(members, *name))
}

#[tactic(auto, using(crate::proofs::Members::all_names))]
fn has_all(members: &Map<String, Value>, names: &[&str]) -> bool
    ensures { result ≡ shapes.has_all (members_view members.now.entries) (map (λ n. n.now) names.now) }
{
    has_each(members, names)
}

fn has_any(members: &Map<String, Value>, names: &[&str]) -> bool
    ensures { result ≡ list_any (λ n. shapes.has (members_view members.now.entries) n.now) names.now }
{
    names.iter().any(|name| has(members, *name))
}

#[tactic(auto, using(crate::proofs::Members::some_names))]
fn has_some(members: &Map<String, Value>, names: &[&str]) -> bool
    ensures { result ≡ shapes.has_some (members_view members.now.entries) (map (λ n. n.now) names.now) }
{
    has_any(members, names)
}

/// The members of a certificate that a host of the document signs, but for `at`.
const SIGNED: &[&str] = &["by", "cat", "to", "from", "until"];

/// The least fault of an object as a whole: a member is missing, or members of both forms of a certificate stand there.
fn whole_fault(object: Object, at: u32, members: &Map<String, Value>) -> Option<Fault>
    ensures { result ≡ least (shapes.whole_faults object at (members_view members.now.entries)) }
{
    match object {
        Object::Host => unless(
            has(members, "name")
                && (has(members, "seed") || has(members, "key"))
                && !(has(members, "seed") && has(members, "key")),
            LACKS,
            at,
        ),
        Object::Cert => cert_fault(at, members),
        _ => unless(has_all(members, object.needed()), LACKS, at),
    }
}

fn cert_fault(at: u32, members: &Map<String, Value>) -> Option<Fault>
    ensures { result ≡ least (shapes.cert_faults at (members_view members.now.entries)) }
{
    if !has(members, "at") || !has(members, "hex") && !has_all(members, SIGNED) {
        return unless(false, LACKS, at);
    }
    if has(members, "hex") && has_some(members, SIGNED) {
        return first_but_at(at, members);
    }
    None
}

/// The first member but `at` is strange.
fn first_but_at(at: u32, members: &Map<String, Value>) -> Option<Fault>
    ensures { result ≡ least (shapes.first_but_at (at ⊕ 1) (members_view members.now.entries)) }
{
    let mut place = at.saturating_add(1);
    for (name, member) in members.iter() {
        if name.as_str() != "at" {
            return unless(false, STRANGE, place);
        }
        place = place.saturating_add(size(member));
    }
    None
}

/// The fault of a number or text.
fn single_fault(
    alloc: Global,
    single: Single,
    at: u32,
    value: &Value,
) -> Result<Option<Fault>, AllocError>
    ensures { IfOk result (λ f. f ≡ least (shapes.single_faults single at (view value.now))) }
{
    match single {
        Single::Number => Ok(unless(value.is_u64(), MISSHAPEN, at)),
        Single::Ranged(low, high) => Ok(match value.as_u64() {
            Some(number) => unless(low <= number && number <= high, BEYOND, at),
            None => unless(false, MISSHAPEN, at),
        }),
        _ => match value.as_str() {
            Some(text) => text_fault(alloc, single, at, text.as_bytes()),
            None => Ok(unless(false, MISSHAPEN, at)),
        },
    }
}

/// The fault of a text.
fn text_fault(
    alloc: Global,
    single: Single,
    at: u32,
    text: &[u8],
) -> Result<Option<Fault>, AllocError>
    ensures { IfOk result (λ f. f ≡ least (shapes.text_faults single at (Some text.now))) }
{
    match single {
        Single::Number | Single::Ranged(_, _) => Ok(unless(false, MISSHAPEN, at)),
        Single::Name => Ok(unless(is_name(text), MISSHAPEN, at)),
        Single::Seed => Ok(unless(is_hex(text) && text.len() == SEED_DIGITS, MISSHAPEN, at)),
        Single::Key => Ok(unless(is_hex(text) && text.len() == KEY_DIGITS, MISSHAPEN, at)),
        Single::Types => Ok(unless(is_types(text), MISSHAPEN, at)),
        Single::Address => Ok(unless(is_address(text), MISSHAPEN, at)),
        Single::Category => Ok(unless(category_of(text).is_some(), MISSHAPEN, at)),
        Single::Register => Ok(unless(register_of(text).is_some(), MISSHAPEN, at)),
        Single::Text => Ok(unless(text.len() <= TEXT_MOST, BEYOND, at)),
        Single::Kind => Ok(unless(kind_of(text).is_some(), MISSHAPEN, at)),
        Single::Hex => Ok(unless(is_hex(text) && text.len() % 2 == 0, MISSHAPEN, at)),
        Single::Cert => cert_text_fault(alloc, at, text),
    }
}

fn is_hex(text: &[u8]) -> bool
    ensures { result ≡ shapes.is_hex text.now }
{
    text.iter().all(|b| b.is_ascii_hexdigit())
}

fn is_types(text: &[u8]) -> bool
    ensures { result ≡ shapes.is_types text.now }
{
    is_word(text, "5.3") || is_word(text, "5.4") || is_word(text, "6.3") || is_word(text, "6.4")
}

/// The fault of a certificate in hex.
fn cert_text_fault(alloc: Global, at: u32, text: &[u8]) -> Result<Option<Fault>, AllocError>
    ensures { IfOk result (λ f. f ≡ least (shapes.cert_text_faults at (hexes.decode_of text.now))) }
{
    match hex::decode(alloc, text) {
        Ok(bytes) => Ok(unless(is_cert(alloc, bytes.as_slice())?, BEYOND, at)),
        Err(FromHexError::OutOfMemory) => Err(AllocError),
        Err(_) => Ok(unless(false, MISSHAPEN, at)),
    }
}

/// Whether the bytes spell a delegation or an address certificate.
fn is_cert(alloc: Global, bytes: &[u8]) -> Result<bool, AllocError>
    ensures { IfOk result (λ b. b ≡ shapes.is_cert (read_cert bytes.now)) }
{
    match Cert::decode(alloc, bytes) {
        Ok(_) => Ok(true),
        Err(CertFault::Malformed(_)) => Ok(false),
        Err(CertFault::NoMemory) => Err(AllocError),
    }
}

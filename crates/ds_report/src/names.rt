//! Names of hosts, categories, labels and rules.
#![tactic(auto)]

ghost use Rattle.std.specs.Prelude.{◌≡◌, ◌++◌, ◌∷◌, List, ℕ, OnOk, position, flat_map};
ghost use Rattle.ds_model.specs.Keys.{same_key};
ghost use Rattle.ds_model.specs.Print.{host_name, key_name, kind_text, category_text, label_text};
ghost use Rattle.ds_plan.specs.Keys.{host_keys};
ghost use Rattle.ds_report.specs.Printings.{printing_of, planned};
ghost use Rattle.ds_report.specs.Words.{behind_comma, label_with, members_behind, rule_words};

use crate::plain::{push, push_hex, push_number};
use ds_label::{Category, Kind, PubKey, Rule};
use ds_plan::Doc;
use std::alloc::AllocError;

/// The name of the host at a place; empty where the document has no such host.
fn name_at(doc: &Doc, place: usize) -> &[u8]
    ensures { result.now ≡ host_name (printing_of doc.now) (planned doc.now) place }
{
    match doc.hosts.get(place) {
        Some(host) => host.name.as_slice(),
        None => &[],
    }
}

/// Appends the name of the host at a place; nothing where the document has no such host.
pub(crate) fn push_host_name(out: &mut Vec<u8>, doc: &Doc, place: usize) -> Result<(), AllocError>
    ensures { OnOk result (out.new.items ≡ out.old.items ++ host_name (printing_of doc.now) (planned doc.now) place) }
{
    push(out, name_at(doc, place))
}

fn position_of(keys: &[PubKey], key: &PubKey) -> Option<usize>
    ensures { result ≡ position (λ k. same_key k key.now) keys.now }
{
    keys.iter().position(|k| *k == *key)
}

/// The place of the host with that key.
#[tactic(auto, using(crate::proofs::Places::key_place))]
fn place_of(doc: &Doc, keys: &[PubKey], key: &PubKey) -> Option<usize>
    requires { keys.now ≡ host_keys doc.now.hosts }
    ensures { result ≡ position (λ x. same_key x.key key.now) (planned doc.now).hosts }
{
    position_of(keys, key)
}

/// Appends the name of the host with that key; where there is none, `~` and the key in hex.
pub(crate) fn push_key_name(
    out: &mut Vec<u8>,
    doc: &Doc,
    keys: &[PubKey],
    key: &PubKey,
) -> Result<(), AllocError>
    requires { keys.now ≡ host_keys doc.now.hosts }
    ensures { OnOk result (out.new.items ≡ out.old.items ++ key_name (printing_of doc.now) (planned doc.now) key.now) }
{
    match place_of(doc, keys, key) {
        Some(place) => push_host_name(out, doc, place),
        None => {
            push(out, b"~")?;
            push_hex(out, &key.0)
        }
    }
}

fn push_kind(out: &mut Vec<u8>, doc: &Doc, kind: Kind) -> Result<(), AllocError>
    ensures { OnOk result (out.new.items ≡ out.old.items ++ kind_text (printing_of doc.now) (planned doc.now) kind) }
{
    match kind {
        Kind::Secrecy => push(out, b"s"),
        Kind::Integrity => push(out, b"i"),
    }
}

/// Appends a category's name: its creator, the upper and the lower part of its number, and its kind, between dots.
pub(crate) fn push_category(
    out: &mut Vec<u8>,
    doc: &Doc,
    keys: &[PubKey],
    category: &Category,
) -> Result<(), AllocError>
    requires { keys.now ≡ host_keys doc.now.hosts }
    ensures { OnOk result (out.new.items ≡ out.old.items ++ category_text (printing_of doc.now) (planned doc.now) category.now) }
{
    push_key_name(out, doc, keys, &category.creator)?;
    push(out, b".")?;
    push_number(out, category.number / 4_294_967_296)?;
    push(out, b".")?;
    push_number(out, category.number % 4_294_967_296)?;
    push(out, b".")?;
    push_kind(out, doc, category.kind)
}

#[tactic(auto, unfolding(crate::specs::Words::behind_comma))]
fn push_behind_comma(
    out: &mut Vec<u8>,
    doc: &Doc,
    keys: &[PubKey],
    category: &Category,
) -> Result<(), AllocError>
    requires { keys.now ≡ host_keys doc.now.hosts }
    ensures { OnOk result (out.new.items ≡ out.old.items ++ behind_comma (printing_of doc.now) (planned doc.now) category.now) }
{
    push(out, b",")?;
    push_category(out, doc, keys, category)
}

/// Appends categories, each behind a comma.
fn push_members(
    out: &mut Vec<u8>,
    doc: &Doc,
    keys: &[PubKey],
    members: &[Category],
) -> Result<(), AllocError>
    requires { keys.now ≡ host_keys doc.now.hosts }
    ensures { OnOk result (out.new.items ≡ out.old.items ++ members_behind (printing_of doc.now) (planned doc.now) members.now) }
{
    for member in members {
        push_behind_comma(out, doc, keys, member)?;
    }
    Ok(())
}

/// Appends a label of a category and others.
fn push_some(
    out: &mut Vec<u8>,
    doc: &Doc,
    keys: &[PubKey],
    first: &Category,
    others: &[Category],
) -> Result<(), AllocError>
    requires { keys.now ≡ host_keys doc.now.hosts }
    ensures { OnOk result (out.new.items ≡ out.old.items ++ label_with (printing_of doc.now) (planned doc.now) first.now others.now) }
{
    push(out, b"{")?;
    push_category(out, doc, keys, first)?;
    push_members(out, doc, keys, others)?;
    push(out, b"}")
}

/// Appends a label: its categories, in their order, in braces.
pub(crate) fn push_label(
    out: &mut Vec<u8>,
    doc: &Doc,
    keys: &[PubKey],
    label: &[Category],
) -> Result<(), AllocError>
    requires { keys.now ≡ host_keys doc.now.hosts }
    ensures { OnOk result (out.new.items ≡ out.old.items ++ label_text (printing_of doc.now) (planned doc.now) label.now) }
{
    match label.split_first() {
        Some((first, others)) => push_some(out, doc, keys, first, others),
        None => push(out, b"{}"),
    }
}

/// Appends a rule's name, and the category that it carries.
pub(crate) fn push_rule(
    out: &mut Vec<u8>,
    doc: &Doc,
    keys: &[PubKey],
    rule: &Rule,
) -> Result<(), AllocError>
    requires { keys.now ≡ host_keys doc.now.hosts }
    ensures { OnOk result (out.new.items ≡ out.old.items ++ rule_words (printing_of doc.now) (planned doc.now) rule.now) }
{
    push(out, rule.name().as_bytes())?;
    match rule {
        Rule::PeerNotTrusted(category)
        | Rule::SenderNotTrusted(category)
        | Rule::NotKnown(category) => {
            push(out, b" ")?;
            push_category(out, doc, keys, category)
        }
        _ => Ok(()),
    }
}

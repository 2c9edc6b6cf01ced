//! Whether a key holds each of some categories.

ghost use Rattle.std.specs.Prelude.{◌≡◌, ◌++◌, IfOk};
ghost use Rattle.ds_label.specs.Names.{by_name};
ghost use Rattle.ds_label.specs.declared.rule.Rule.TheVariants as rules;
ghost use Rattle.ds_model.specs.FirstRule.{each_member, each_secret};
ghost use Rattle.ds_flow.specs.Asked.{holds_by, holds_integrity};

use ds_chain::{CertBook, CertList};
use ds_label::{Category, Kind, PubKey, Rule};
use std::alloc::AllocError;

/// The rule of the first secrecy category that the receiver doesn't hold by the delegations of both lists; none where it holds
/// each.
pub(crate) fn first_not_trusted_with(
    store: &mut CertBook,
    extra: &CertList,
    now: u64,
    to: &PubKey,
    label: &[Category],
) -> Result<Option<Rule>, AllocError>
    ensures rule { IfOk result (λ rule. rule ≡ each_secret by_name (holds_by (store.old.items ++ extra.now.items) now to.now) rules.PeerNotTrusted label.now) }
    ensures same { store.new ≡ store.old }
{
    for c in label {
        if c.kind == Kind::Secrecy && !store.holds(extra, now, c, to)? {
            return Ok(Some(Rule::PeerNotTrusted(*c)));
        }
    }
    Ok(None)
}

/// The rule of the first category that the sender doesn't hold by what the host keeps and the message shows; none where it
/// holds each.
pub(crate) fn first_not_held(
    store: &mut CertBook,
    extra: &CertList,
    now: u64,
    by: &PubKey,
    members: &[Category],
) -> Result<Option<Rule>, AllocError>
    ensures rule { IfOk result (λ rule. rule ≡ each_member (holds_by (store.old.items ++ extra.now.items) now by.now) rules.SenderNotTrusted members.now) }
    ensures same { store.new ≡ store.old }
{
    for c in members {
        if !store.holds(extra, now, c, by)? {
            return Ok(Some(Rule::SenderNotTrusted(*c)));
        }
    }
    Ok(None)
}

/// The same for the integrity categories of a label.
pub(crate) fn first_integrity_not_held(
    store: &mut CertBook,
    extra: &CertList,
    now: u64,
    by: &PubKey,
    label: &[Category],
) -> Result<Option<Rule>, AllocError>
    ensures rule { IfOk result (λ rule. rule ≡ each_member (holds_integrity (store.old.items ++ extra.now.items) now by.now) rules.SenderNotTrusted label.now) }
    ensures same { store.new ≡ store.old }
{
    for c in label {
        if c.kind != Kind::Secrecy && !store.holds(extra, now, c, by)? {
            return Ok(Some(Rule::SenderNotTrusted(*c)));
        }
    }
    Ok(None)
}

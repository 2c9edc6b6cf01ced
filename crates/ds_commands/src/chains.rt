//! The answer about a chain.

ghost use Rattle.std.specs.Prelude.{◌≡◌, ◌≤◌, ◌++◌, IfOk, IfErr, OnOk, length, option_map};
ghost use Rattle.std.specs.List.{flat_map};
ghost use Rattle.ds_chain.specs.Delegated.{chain_to};
ghost use Rattle.ds_commands.specs.Chains.{after_space, category_line, chain_reply, found, found_text, key_line, key_missing, searched, spaced};
ghost use Rattle.ds_commands.specs.declared.reply.CommandFault.TheVariants.{NoMemory};

use crate::keys::push_number;
use crate::lines::key_of;
use crate::reply::{CommandFault, Reply};
use crate::scan::{Scan, first_line, scan_lines};
use ds_cert::get_category;
use ds_chain::{CertList, search};
use ds_label::{Category, PubKey};
use ds_wire::Bytes;
use hex::FromHex;
use std::alloc::{AllocError, Global};

/// The category that a line spells in hex.
fn category_line(line: &[u8]) -> Option<Category>
    ensures { result ≡ category_line line.now }
{
    let bytes = <[u8; 65] as FromHex>::from_hex(line).ok()?;
    match get_category(&bytes) {
        Some((category, [])) => Some(category),
        Some((_, [_, ..])) => None,
        None => None,
    }
}

/// The key that a line spells in hex.
fn key_line(line: &[u8]) -> Option<PubKey>
    ensures { result ≡ key_line line.now }
{
    match key_of(line) {
        Some(key) => Some(PubKey(key)),
        None => None,
    }
}

/// Appends places, each after a space.
fn push_spaced(out: &mut Vec<u8>, places: &[u32]) -> Result<(), AllocError>
    ensures { OnOk result (out.new.items ≡ out.old.items ++ flat_map after_space places.now) }
{
    for place in places {
        out.extend_from_slice(b" ")?;
        push_number(out, u64::from(*place))?;
    }
    Ok(())
}

/// Appends places, a space before each but the first.
fn push_places(out: &mut Vec<u8>, places: &[u32]) -> Result<(), AllocError>
    ensures { OnOk result (out.new.items ≡ out.old.items ++ spaced places.now) }
{
    match places {
        [] => Ok(()),
        [first, others @ ..] => {
            push_number(out, u64::from(*first))?;
            push_spaced(out, others)?;
            Ok(())
        }
    }
}

/// The text of a chain.
fn found_text(alloc: Global, places: &[u32]) -> Result<Vec<u8>, AllocError>
    ensures { IfOk result (λ text. text.items ≡ found_text places.now) }
{
    let mut out = Vec::from_slice(alloc, b"holds ")?;
    push_number(&mut out, places.len() as u64)?;
    out.extend_from_slice(b"\n")?;
    push_places(&mut out, places)?;
    out.extend_from_slice(b"\n")?;
    Ok(out)
}

/// The answer of a search.
fn found(alloc: Global, places: Option<&[u32]>) -> Result<Reply, AllocError>
    ensures { IfOk result (λ reply. reply ≡ found (option_map (λ p. p.now) places.entry)) }
{
    match places {
        None => Ok(Reply::Denies(Bytes::from_slice(alloc, b"none\n")?)),
        Some(places) => Ok(Reply::Prints(Bytes::from_vec(found_text(alloc, places)?))),
    }
}

/// The answer about the chain to a key by these delegations.
fn chain_of(
    alloc: Global,
    moment: u64,
    category: &Category,
    key: &PubKey,
    kept: &CertList,
) -> Result<Reply, AllocError>
    ensures { IfOk result (λ reply. reply ≡ found (chain_to kept.now.items moment category.now key.now)) }
{
    let none = CertList::new(alloc);
    match search(alloc, kept, &none, moment, category, key)? {
        None => found(alloc, None),
        Some(chain) => found(alloc, Some(chain.places())),
    }
}

/// The answer where the key's line is missing.
fn key_missing(category: Option<Category>) -> Reply
    ensures { result ≡ key_missing category }
{
    match category {
        None => Reply::Breaks(12, 0),
        Some(_) => Reply::Breaks(12, 1),
    }
}

/// The answer, by what the lines hold.
fn searched(
    alloc: Global,
    moment: u64,
    category: Option<Category>,
    key: Option<PubKey>,
    scan: &Scan,
) -> Result<Reply, AllocError>
    ensures { IfOk result (λ reply. reply ≡ searched moment category key scan.now) }
{
    if let Some(line) = scan.over {
        return Ok(Reply::Breaks(5, line));
    }
    let Some(category) = category else {
        return Ok(Reply::Breaks(12, 0));
    };
    let Some(key) = key else {
        return Ok(Reply::Breaks(12, 1));
    };
    if let Some(line) = scan.faulty {
        return Ok(Reply::Breaks(12, line));
    }
    let reply = chain_of(alloc, moment, &category, &key, &scan.kept)?;
    Ok(reply)
}

/// The answer of `chain` at a moment.
#[tactic(auto, unfolding(crate::specs::Chains::lines_of))]
fn judged(alloc: Global, moment: u64, input: &[u8]) -> Result<Reply, AllocError>
    requires { length input.now ≤ 16777216 }
    ensures { IfOk result (λ reply. reply ≡ chain_reply moment input.now) }
{
    if input.is_empty() {
        return Ok(Reply::Breaks(12, 0));
    }
    let (first, rest) = first_line(input);
    let category = category_line(first);
    if rest.is_empty() {
        return Ok(key_missing(category));
    }
    let (second, rest) = first_line(rest);
    let key = key_line(second);
    let found = scan_lines(alloc, 2, rest)?;
    let reply = searched(alloc, moment, category, key, &found)?;
    Ok(reply)
}

/// The answer of `chain` at a moment.
pub(crate) fn chained(alloc: Global, moment: u64, input: &[u8]) -> Result<Reply, CommandFault>
    requires { length input.now ≤ 16777216 }
    ensures ok { IfOk result (λ reply. reply ≡ chain_reply moment input.now) }
    ensures err { IfErr result (λ e. e ≡ NoMemory) }
{
    match judged(alloc, moment, input) {
        Ok(reply) => Ok(reply),
        Err(_) => Err(CommandFault::NoMemory),
    }
}

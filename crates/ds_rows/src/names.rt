//! What lines gave names to, and bytes that are put together from pieces.
//!
//! | piece | bytes |
//! |---|---|
//! | `NAME` | those of that name |
//! | `NAME:A:B` | of these the ones from place A up to place B |
//! | `with:NAME:A:HEX` | those of that name, with these instead from place A on |
//! | `0a2b` | these two |
//! | `0a2b*3` | these two three times |
//! | `'hello` | those of the text |
//! | `u16:N`, `u32:N`, `u64:N` | those of the number, the highest first |
//! | `seed:S:I`, `id:S:I` | the seed and the identifier that come from a secret of 32 bytes S and index I |
//! | `key:TREE` | those of the public key |
//! | `sign:TREE:Q:NAME` | those of the signature at leaf Q |
//! | `sha:NAME` | those of the SHA-256 digest |
//! | `hex:NAME` | those of the text in hex |

use crate::reading::{Stop, at, fits, is, number, params, small, split};
use crate::row::Row;
use ds_base::MemKeeper;
use ds_cert::key_of;
use ds_label::{Category, Kind, PubKey};
use lms_sig::{LmsType, TreeKey, derive};
use sha2::{Digest, Sha256};
use std::alloc::{AllocError, Global};

/// What lines gave names to, and the keeper of marks that the commands share.
#[derive(Drop)]
pub(crate) struct Names {
    bytes: Vec<(Vec<u8>, Vec<u8>)>,
    trees: Vec<(Vec<u8>, TreeKey)>,
    pub(crate) keeper: MemKeeper,
}

impl Names {
    pub(crate) fn new(alloc: Global) -> Names {
        Names {
            bytes: Vec::new(alloc),
            trees: Vec::new(alloc),
            keeper: MemKeeper::new(Vec::new(alloc), Vec::new(alloc), Vec::new(alloc)),
        }
    }

    /// The bytes of that name.
    pub(crate) fn find(&self, name: &[u8]) -> Option<&[u8]> {
        for (own, bytes) in &self.bytes {
            if own.as_slice() == name {
                return Some(bytes.as_slice());
            }
        }
        None
    }

    /// The key tree of that name.
    pub(crate) fn tree(&self, name: &[u8]) -> Result<&TreeKey, Stop> {
        for (own, tree) in &self.trees {
            if own.as_slice() == name {
                return Ok(tree);
            }
        }
        Err(Stop::BadLine)
    }

    /// Gives a key tree that name.
    fn keep_tree(&mut self, alloc: Global, name: &[u8], tree: TreeKey) -> Result<(), Stop> {
        self.trees.push((Vec::from_slice(alloc, name)?, tree))?;
        Ok(())
    }

    /// Gives these bytes that name, unless the name is taken.
    pub(crate) fn keep(&mut self, alloc: Global, name: &[u8], bytes: Vec<u8>) -> Result<(), Stop> {
        if self.find(name).is_some() {
            return Err(Stop::BadLine);
        }
        self.bytes.push((Vec::from_slice(alloc, name)?, bytes))?;
        Ok(())
    }
}

/// The key tree of these types, of a secret of 32 equal bytes, at this index.
pub(crate) fn made_tree(
    alloc: Global,
    types: &[u8],
    secret: &[u8],
    index: &[u8],
) -> Result<TreeKey, Stop> {
    let (seed, id) = derive(&[small(secret, 255)? as u8; 32], small(index, 32)?);
    Ok(TreeKey::make(alloc, params(types)?, seed, id)?)
}

/// The signature of a message at a leaf.
fn signature(tree: &TreeKey, leaf: u32, message: &[u8]) -> Result<Vec<u8>, Stop> {
    if leaf >= 1024 || tree.height() == 5 && leaf >= 32 {
        return Err(Stop::BadLine);
    }
    Ok(tree.sign_at(leaf, message)?)
}

/// Appends bytes.
fn append(out: &mut Vec<u8>, bytes: &[u8]) -> Result<(), Stop> {
    out.extend_from_slice(bytes)?;
    Ok(())
}

/// Appends the bytes that hex digits spell.
fn append_unhexed(alloc: Global, out: &mut Vec<u8>, digits: &[u8]) -> Result<(), Stop> {
    match hex::decode(alloc, digits) {
        Ok(bytes) => append(out, &bytes),
        Err(_) => Err(Stop::BadLine),
    }
}

/// Appends hex digits' bytes so often.
fn append_times(alloc: Global, out: &mut Vec<u8>, digits: &[u8], times: u32) -> Result<(), Stop> {
    for _ in 0..times {
        append_unhexed(alloc, out, digits)?;
    }
    Ok(())
}

/// Appends the bytes of a word without colons.
fn plain(alloc: Global, names: &Names, word: &[u8], out: &mut Vec<u8>) -> Result<(), Stop> {
    if let Some(bytes) = names.find(word) {
        return append(out, bytes);
    }
    if let Some(text) = word.strip_prefix(b"'") {
        return append(out, text);
    }
    match word.iter().position(|byte| *byte == b'*') {
        Some(place) => {
            let times = small(word.get(place.saturating_add(1)..).unwrap_or(&[]), 65_536)?;
            append_times(alloc, out, word.get(..place).unwrap_or(&[]), times)
        }
        None => append_unhexed(alloc, out, word),
    }
}

/// Writes the bytes that hex digits spell over others, from a place on.
fn overwrite(alloc: Global, out: &mut Vec<u8>, place: u32, digits: &[u8]) -> Result<(), Stop> {
    let Ok(bytes) = hex::decode(alloc, digits) else {
        return Err(Stop::BadLine);
    };
    let mut at = place as usize;
    for byte in &bytes {
        if let Some(old) = out.get_mut(at) {
            *old = *byte;
        }
        at = at.saturating_add(1);
    }
    Ok(())
}

/// Appends the bytes of a tag and a word, of which the last two tags take that word's bytes.
fn tagged(
    alloc: Global,
    names: &Names,
    tag: &[u8],
    word: &[u8],
    out: &mut Vec<u8>,
) -> Result<(), Stop> {
    if is(tag, "u16") {
        return append(out, &(small(word, 65_535)? as u16).to_be_bytes());
    }
    if is(tag, "u32") {
        return append(out, &small(word, u32::MAX)?.to_be_bytes());
    }
    if is(tag, "u64") {
        return append(out, &number(word)?.to_be_bytes());
    }
    if is(tag, "key") {
        return append(out, &names.tree(word)?.public());
    }
    let mut bytes = Vec::new(alloc);
    plain(alloc, names, word, &mut bytes)?;
    if is(tag, "sha") {
        return append(out, &Sha256::digest(&bytes));
    }
    append_hex(alloc, out, &bytes)
}

/// Appends the text in hex.
fn append_hex(alloc: Global, out: &mut Vec<u8>, bytes: &[u8]) -> Result<(), Stop> {
    append(out, hex::encode(alloc, bytes)?.as_bytes())
}

/// The seed and the identifier of a secret and an index.
fn derived(secret: &[u8], index: &[u8]) -> Result<([u8; 32], [u8; 16]), Stop> {
    Ok(derive(&[small(secret, 255)? as u8; 32], small(index, 32)?))
}

/// Appends the part of a name's bytes between two places.
fn append_part(out: &mut Vec<u8>, bytes: &[u8], from: &[u8], to: &[u8]) -> Result<(), Stop> {
    let from = small(from, 1_000_000)? as usize;
    let to = small(to, 1_000_000)? as usize;
    match bytes.get(from..to) {
        Some(part) => append(out, part),
        None => Err(Stop::BadLine),
    }
}

/// Appends a signature.
fn append_signature(
    alloc: Global,
    names: &Names,
    parts: &[&[u8]],
    out: &mut Vec<u8>,
) -> Result<(), Stop> {
    let mut message = Vec::new(alloc);
    plain(alloc, names, at(parts, 3), &mut message)?;
    let leaf = small(at(parts, 2), 1023)?;
    append(out, &signature(names.tree(at(parts, 1))?, leaf, &message)?)
}

/// Appends the bytes of one piece, by its parts.
fn append_piece(
    alloc: Global,
    names: &Names,
    parts: &[&[u8]],
    out: &mut Vec<u8>,
) -> Result<(), Stop> {
    if fits(parts, "_") {
        return plain(alloc, names, at(parts, 0), out);
    }
    if fits(parts, "_ _") {
        return tagged(alloc, names, at(parts, 0), at(parts, 1), out);
    }
    if fits(parts, "seed _ _") {
        return append(out, &derived(at(parts, 1), at(parts, 2))?.0);
    }
    if fits(parts, "id _ _") {
        return append(out, &derived(at(parts, 1), at(parts, 2))?.1);
    }
    if fits(parts, "sign _ _ _") {
        return append_signature(alloc, names, parts, out);
    }
    if fits(parts, "with _ _ _") {
        plain(alloc, names, at(parts, 1), out)?;
        return overwrite(alloc, out, small(at(parts, 2), 1_000_000)?, at(parts, 3));
    }
    match names.find(at(parts, 0)) {
        Some(bytes) => append_part(out, bytes, at(parts, 1), at(parts, 2)),
        None => Err(Stop::BadLine),
    }
}

/// The bytes of the pieces from a place on, in order.
pub(crate) fn pieces(
    alloc: Global,
    names: &Names,
    words: &[&[u8]],
    from: usize,
) -> Result<Vec<u8>, Stop> {
    let mut all = Vec::new(alloc);
    for word in words.get(from..).unwrap_or(&[]) {
        let mut bytes = Vec::new(alloc);
        append_piece(alloc, names, &split(alloc, word, b':')?, &mut bytes)?;
        append(&mut all, &bytes)?;
    }
    Ok(all)
}

/// Gives bytes that are put together a name.
fn lets(row: &mut Row<'_>, names: &mut Names) {
    let bytes = pieces(row.alloc, names, &row.words, 3);
    if let Some(bytes) = row.got(bytes) {
        row.say_number(bytes.len() as u64);
        row.say("bytes");
        let kept = names.keep(row.alloc, row.word(1), bytes);
        let _ = row.got(kept);
    }
}

/// Gives a key tree a name.
fn tree(row: &mut Row<'_>, names: &mut Names) {
    let tree = made_tree(row.alloc, row.word(3), row.word(4), row.word(5));
    if let Some(tree) = row.got(tree) {
        row.say_number(if tree.height() == 5 { 32 } else { 1024 });
        row.say("leaves");
        let kept = names.keep_tree(row.alloc, row.word(1), tree);
        let _ = row.got(kept);
    }
}

/// `let NAME = PIECES` and `tree NAME = TYPES SECRET INDEX` give names, `show PIECES` shows bytes.
pub(crate) fn row(row: &mut Row<'_>, names: &mut Names) {
    if row.fits("let _ = ..") {
        lets(row, names);
        return;
    }
    if row.fits("tree _ = _ _ _") {
        tree(row, names);
        return;
    }
    let bytes = pieces(row.alloc, names, &row.words, 1);
    if let Some(bytes) = row.got(bytes) {
        row.say_hex(&bytes);
    }
}

/// A key: a number for 56 equal bytes, or a name.
pub(crate) fn key(names: &Names, word: &[u8]) -> Result<PubKey, Stop> {
    match names.find(word) {
        Some(bytes) => match key_of(bytes) {
            Ok((key, [])) => Ok(key),
            _ => Err(Stop::BadLine),
        },
        None => Ok(PubKey([small(word, 255)? as u8; 56])),
    }
}

/// `s` or `i`.
pub(crate) fn kind_of(word: &[u8]) -> Result<Kind, Stop> {
    if is(word, "s") {
        Ok(Kind::Secrecy)
    } else if is(word, "i") {
        Ok(Kind::Integrity)
    } else {
        Err(Stop::BadLine)
    }
}

/// A category: a key, `s` or `i`, and a number, between dots.
pub(crate) fn category(alloc: Global, names: &Names, word: &[u8]) -> Result<Category, Stop> {
    let parts = split(alloc, word, b'.')?;
    Ok(Category {
        creator: key(names, at(&parts, 0))?,
        kind: kind_of(at(&parts, 1))?,
        number: number(at(&parts, 2))?,
    })
}

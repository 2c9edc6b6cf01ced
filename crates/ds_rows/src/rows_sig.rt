//! Signatures by a key tree, and signers over a keeper.

use crate::names::{Names, made_tree};
use crate::row::Row;
use ds_base::{Keeper, MemKeeper};
use lms_sig::{Bad, TreeKey, verify};
use lms_state::{SignFault, Signer};

/// What is said of a signature.
fn verdict(key: &[u8; 56], message: &[u8], signature: &[u8]) -> &'static str {
    match verify(key, message, signature) {
        Ok(()) => "good",
        Err(Bad::Length) => "Length",
        Err(Bad::LeafRange) => "LeafRange",
        Err(Bad::OtherKey) => "OtherKey",
        Err(Bad::OtherParameters) => "OtherParameters",
        Err(Bad::Root) => "Root",
    }
}

/// What is said of the signature with each byte changed by one bit in turn: each place from which on another thing is said.
fn each_byte(row: &mut Row<'_>, key: &[u8; 56], message: &[u8], mut signature: Vec<u8>) {
    let mut last = "";
    for at in 0..signature.len() {
        signature[at] ^= 1;
        let now = verdict(key, message, &signature);
        signature[at] ^= 1;
        if now != last {
            row.say_number(at as u64);
            row.say(now);
            last = now;
        }
    }
}

/// The same of each byte of the key.
fn each_key_byte(row: &mut Row<'_>, mut key: [u8; 56], message: &[u8], signature: &[u8]) {
    let mut last = "";
    for at in 0..56usize {
        key[at] ^= 128;
        let now = verdict(&key, message, signature);
        key[at] ^= 128;
        if now != last {
            row.say_number(at as u64);
            row.say(now);
            last = now;
        }
    }
}

/// Signs so often, and says each signature's leaf and whether it is good.
fn signs(row: &mut Row<'_>, signer: &mut Signer, keeper: &mut MemKeeper, times: u32) {
    let key = signer.public();
    for _ in 0..times {
        match signer.sign(keeper, b"message") {
            Ok(made) => {
                row.say_number(made.get(3).copied().unwrap_or(255) as u64);
                row.say(verdict(&key, b"message", &made));
            }
            Err(SignFault::Spent) => row.say("Spent"),
            Err(SignFault::KeeperFault) => row.say("KeeperFault"),
            Err(SignFault::NoMemory) => row.full(),
        }
    }
    row.say("next");
    row.say_number(signer.next() as u64);
    row.say("left");
    row.say_number(signer.left() as u64);
}

/// A signer of this key that is resumed over a keeper and signs so often.
fn resumes(row: &mut Row<'_>, tree: TreeKey, keeper: &mut MemKeeper, times: u32) {
    match Signer::resume(tree, keeper) {
        Ok(mut signer) => signs(row, &mut signer, keeper, times),
        Err(_) => row.say("Failed"),
    }
}

/// A keeper with this mark of the key of 32 leaves of a secret and index 0; a signer over it, and then another one.
fn signer(row: &mut Row<'_>) {
    let (calls, kept) = (row.numbers(4), row.numbers(6));
    let mut keeper = MemKeeper::new(Vec::new(row.alloc), calls, kept);
    let mark = row.number(2);
    let times = row.small(8, 99);
    let first = made_tree(row.alloc, b"5.3", b"7", b"0");
    if let Some(tree) = row.got(first) {
        let _ = keeper.raise(&tree.id(), mark);
        resumes(row, tree, &mut keeper, times);
    }
    row.say("resumed");
    let second = made_tree(row.alloc, b"5.3", b"7", b"0");
    if let Some(tree) = row.got(second) {
        resumes(row, tree, &mut keeper, 0);
    }
}

/// `verify KEY MESSAGE SIGNATURE`, `verify-each KEY MESSAGE SIGNATURE`, `verify-keys KEY MESSAGE SIGNATURE`,
/// `signer mark M fails CALLS keeps CALLS signs N`.
pub(crate) fn row(row: &mut Row<'_>, names: &Names) {
    if row.is(0, "signer") {
        return signer(row);
    }
    let key = row.key(names, 1).0;
    let message = row.bytes(names, 2);
    let signature = row.bytes(names, 3);
    if row.is(0, "verify") {
        row.say(verdict(&key, &message, &signature));
        return;
    }
    if row.is(0, "verify-each") {
        each_byte(row, &key, &message, signature);
        return;
    }
    each_key_byte(row, key, &message, &signature);
}

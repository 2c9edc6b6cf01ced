//! The messages that are hashed: each begins with the identifier, a number of a leaf or a node, and a
//! number that says what kind of message it is.

ghost use Rattle.std.specs.Prelude.{◌≡◌, ◌+◌, ◌*◌, ◌++◌, ◌≤◌, length, take};
ghost use Rattle.lms_sig.specs.Strings.{part, u16str, u32_at, u32str};
ghost use Rattle.lms_sig.specs.Merkle.{inner, leaf};

use sha2::{Digest, Sha256};

// The bytes of a prefix: 16 of the identifier, 4 of the node, 2 of the kind.
pub(crate) const PREFIX: usize = 22;

const LEAF: u16 = 0x8282;

const INNER: u16 = 0x8383;

pub(crate) fn u32_bytes(n: u32) -> [u8; 4]
    ensures { result ≡ u32str n }
{
    n.to_be_bytes()
}

pub(crate) fn u16_bytes(n: u16) -> [u8; 2]
    ensures { result ≡ u16str n }
{
    n.to_be_bytes()
}

pub(crate) fn read_u32(bytes: &[u8], at: usize) -> u32
    requires { at + 4 ≤ length bytes.now }
    ensures { result ≡ u32_at bytes.now at }
{
    u32::from_be_bytes([bytes[at], bytes[at + 1], bytes[at + 2], bytes[at + 3]])
}

// The `i`-th of the values of 32 bytes that stand one after another.
pub(crate) fn value_at(values: &[u8], i: usize) -> [u8; 32]
    requires { 32 * i + 32 ≤ length values.now }
    ensures { result ≡ part values.now (32 * i) 32 }
{
    let mut out = [0u8; 32];
    out.copy_from_slice(&values[32 * i..32 * i + 32]);
    out
}

// Writes a piece into `out` from place `at` on.
pub(crate) fn put(out: &mut [u8], at: usize, piece: &[u8])
    requires { at + length piece.now ≤ length out.old }
    ensures { take (at + length piece.now) out.new ≡ take at out.old ++ piece.now }
{
    out[at..at + piece.len()].copy_from_slice(piece);
}

// What every hashed message begins with.
pub(crate) fn prefix(id: &[u8; 16], node: u32, kind: u16) -> [u8; PREFIX]
    ensures { result ≡ id.now ++ u32str node ++ u16str kind }
{
    let mut out = [0u8; PREFIX];
    put(&mut out, 0, id);
    put(&mut out, 16, &u32_bytes(node));
    put(&mut out, 20, &u16_bytes(kind));
    out
}

// The value of a leaf.
pub(crate) fn leaf_hash(id: &[u8; 16], node: u32, key: &[u8; 32]) -> [u8; 32]
    ensures { result ≡ leaf id.now node key.now }
{
    let mut hasher = Sha256::new();
    hasher.update(&prefix(id, node, LEAF));
    hasher.update(key);
    hasher.finalize()
}

// The value of an inner node.
pub(crate) fn inner_hash(id: &[u8; 16], node: u32, left: &[u8; 32], right: &[u8; 32]) -> [u8; 32]
    ensures { result ≡ inner id.now node left.now right.now }
{
    let mut hasher = Sha256::new();
    hasher.update(&prefix(id, node, INNER));
    hasher.update(left);
    hasher.update(right);
    hasher.finalize()
}

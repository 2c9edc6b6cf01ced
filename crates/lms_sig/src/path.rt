//! The way from a leaf to the root (RFC 8554, sections 5.4.1 and 5.4.2).

ghost use Rattle.std.specs.Prelude.{◌≡◌, ◌*◌, ◌+◌, ◌<◌, ◌^◌, length};
ghost use Rattle.lms_sig.specs.Merkle.{climb, parent, sibling};

use crate::hash::{inner_hash, value_at};

// The other child of a node's parent.
pub(crate) fn sibling_of(node: usize) -> usize
    requires above { 0 < node }
    requires fits { node < 2 ^ 32 }
    ensures { result ≡ sibling node }
{
    if node % 2 == 0 { node + 1 } else { node - 1 }
}

// The value of the parent of `node`, from the values of the node and of its sibling.
fn parent_hash(id: &[u8; 16], node: u32, value: &[u8; 32], other: &[u8; 32]) -> [u8; 32]
    ensures { result ≡ parent id.now node value.now other.now }
{
    if node % 2 == 0 {
        inner_hash(id, node / 2, value, other)
    } else {
        inner_hash(id, node / 2, other, value)
    }
}

// The value `levels` above `node`.
pub(crate) fn climbed(
    id: &[u8; 16],
    node: u32,
    value: [u8; 32],
    siblings: &[u8],
    levels: usize,
) -> [u8; 32]
    requires { length siblings.now ≡ 32 * levels }
    ensures { result ≡ climb id.now node value siblings.now levels }
{
    let mut value = value;
    let mut node = node;
    'levels: for i in 0..levels {
        let other = value_at(siblings, i);
        value = parent_hash(id, node, &value, &other);
        node /= 2;
    }
    value
}

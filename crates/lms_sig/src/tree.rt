//! A signing key that keeps every node of its tree (RFC 8554, section 5 and appendix C).

ghost use Rattle.std.specs.Prelude.{◌≡◌, ◌+◌, ◌*◌, ◌<◌, ◌≤◌, ◌++◌, [], IfOk, OnOk, List, ℕ, length, slice_index_or};
ghost use Rattle.lms_sig.specs.Keys.{Key};
ghost use Rattle.lms_sig.specs.Merkle.{T, path, public_key, signature};
ghost use Rattle.lms_sig.specs.Parameters.{height, leaf_count};
ghost use Rattle.lms_sig.specs.TreeNodes.{HoldsFrom, IsTree};
ghost use Rattle.lms_sig.specs.declared.params.Params.{Params};

use crate::hash::{inner_hash, leaf_hash, put, u32_bytes};
use crate::leaves::eight_keys;
use crate::one_time::put_one_time;
use crate::params::Params;
use crate::path::sibling_of;
use std::alloc::{AllocError, Global};
use std::marker::Model;

/// A signing key: its types, its secret seed and its identifier, and every node of its tree, so that
/// to sign computes the chains of one leaf and copies the path.
#[derive(Drop)]
pub struct TreeKey {
    params: Params,
    seed: [u8; 32],
    id: [u8; 16],
    // Node r at place r; place 0 is unused.
    nodes: Vec<[u8; 32]>,
}

impl Model for TreeKey {
    ghost Value = { Key };

    ghost view = { λ a. record { params = a.params; seed = a.seed; id = a.id } };

    ghost invariant = { λ a. IsTree a.params a.seed a.id a.nodes.items };
}

// Writes eight leaves of a tree, from leaf `first` on, into the second half of its nodes.
fn put_leaves(nodes: &mut [[u8; 32]], params: Params, seed: &[u8; 32], id: &[u8; 16], first: u32)
    requires size { length nodes.old ≡ 2 * leaf_count params.lms }
    requires leaves { first + 8 ≤ leaf_count params.lms }
    ensures size { length nodes.new ≡ 2 * leaf_count params.lms }
    ensures leaves { ((r : ℕ) → leaf_count params.lms ≤ r → r < leaf_count params.lms + first
        → slice_index_or nodes.old r [] ≡ T params seed.now id.now 0 r)
        → (r : ℕ) → leaf_count params.lms ≤ r → r < leaf_count params.lms + (first + 8)
        → slice_index_or nodes.new r [] ≡ T params seed.now id.now 0 r }
{
    let leaves = params.lms.leaf_count();
    let keys = eight_keys(params.ots, seed, id, first);
    'lanes: for l in 0..8 {
        let q = first + l;
        nodes[(leaves + q) as usize] = leaf_hash(id, leaves + q, &keys[l as usize]);
    }
}

// Writes the leaves of a tree into the second half of its nodes.
fn fill_leaves(nodes: &mut [[u8; 32]], params: Params, seed: &[u8; 32], id: &[u8; 16])
    requires { length nodes.old ≡ 2 * leaf_count params.lms }
    ensures { HoldsFrom params seed.now id.now nodes.new (leaf_count params.lms) }
{
    'eights: for group in 0..params.lms.leaf_count() / 8 {
        put_leaves(nodes, params, seed, id, 8 * group);
    }
}

// Writes the inner nodes, each over its children, from the last to the root.
fn fill_inner(nodes: &mut [[u8; 32]], id: &[u8; 16], leaves: u32)
    requires { length nodes.old ≡ 2 * leaves }
    ensures { (params : Params) (seed : List ℕ) → leaves ≡ leaf_count params.lms
        → HoldsFrom params seed id.now nodes.old leaves → HoldsFrom params seed id.now nodes.new 1 }
{
    let mut node = leaves;
    'inner: while node > 1 {
        node -= 1;
        let left = nodes[2 * node as usize];
        let right = nodes[2 * node as usize + 1];
        nodes[node as usize] = inner_hash(id, node, &left, &right);
    }
}

// Appends the siblings of the nodes from leaf `q` up to the root's children.
fn put_path(out: &mut Vec<u8>, params: Params, nodes: &[[u8; 32]], q: u32) -> Result<(), AllocError>
    requires leaf { q < leaf_count params.lms }
    requires size { length nodes.now ≡ 2 * leaf_count params.lms }
    ensures { (seed id : List ℕ) → HoldsFrom params seed id nodes.now 1
        → OnOk result (out.new.items ≡ out.old.items
        ++ path params seed id 0 (leaf_count params.lms + q) (height params.lms)) }
{
    let mut node = (params.lms.leaf_count() + q) as usize;
    'levels: for _level in 0..params.lms.height() {
        out.extend_from_slice(&nodes[sibling_of(node)])?;
        node /= 2;
    }
    Ok(())
}

impl TreeKey {
    /// The key with these types, this secret seed and this identifier. It computes the whole tree,
    /// 2^h one-time keys: about 36,000 (H5, W4) to 8,900,000 (H10, W8) hashes. The only error is that
    /// memory ran out, for 64 * 2^h bytes.
    pub fn make(
        alloc: Global,
        params: Params,
        seed: [u8; 32],
        id: [u8; 16],
    ) -> Result<TreeKey, AllocError>
        ensures { IfOk result (λ key. key ≡ record { params = params; seed = seed; id = id }) }
    {
        let leaves = params.lms.leaf_count();
        let mut nodes = vec![in alloc; [0u8; 32]; 2 * leaves as usize]?;
        fill_leaves(&mut nodes, params, &seed, &id);
        fill_inner(&mut nodes, &id, leaves);
        Ok(TreeKey {
            params,
            seed,
            id,
            nodes,
        })
    }

    /// The public key, 56 bytes: the typecodes, the identifier and the root (section 5.3).
    pub fn public(&self) -> [u8; 56]
        ensures { result ≡ public_key self.now.params self.now.seed self.now.id }
    {
        let mut out = [0u8; 56];
        put(&mut out, 0, &u32_bytes(self.params.lms.code()));
        put(&mut out, 4, &u32_bytes(self.params.ots.code()));
        put(&mut out, 8, &self.id);
        put(&mut out, 24, &self.nodes[1]);
        out
    }

    /// The height of the tree, h: it has 2^h leaves.
    pub fn height(&self) -> u32
        ensures { result ≡ height self.now.params.lms }
    {
        self.params.lms.height()
    }

    /// The identifier, 16 bytes.
    pub fn id(&self) -> [u8; 16]
        ensures { result ≡ self.now.id }
    {
        self.id
    }

    /// The signature of a message at leaf `q` (section 5.4.1): 4 + (36 + 32 p) + 4 + 32 h bytes. The
    /// same leaf must never sign two messages. The only error is that memory ran out.
    pub fn sign_at(&self, q: u32, message: &[u8]) -> Result<Vec<u8>, AllocError>
        requires { q < leaf_count self.now.params.lms }
        ensures { IfOk result (λ made. made.items
            ≡ signature self.now.params self.now.seed self.now.id q message.now) }
    {
        let alloc = *self.nodes.allocator();
        let mut out = Vec::with_capacity(alloc, self.params.signature_length())?;
        out.extend_from_slice(&u32_bytes(q))?;
        put_one_time(&mut out, self.params.ots, &self.seed, &self.id, q, message)?;
        out.extend_from_slice(&u32_bytes(self.params.lms.code()))?;
        put_path(&mut out, self.params, &self.nodes, q)?;
        Ok(out)
    }
}

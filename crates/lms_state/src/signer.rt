//! A key and its next leaf.
#![tactic(auto)]

ghost use Rattle.std.specs.Prelude.{◌≡◌, ◌+◌, ◌-◌, ◌≤◌, ◌↔◌, ◌⊎◌, ℕ, List, ◌∷◌, length, Option, Some, IfOk, IfErr, OnOk, OnErr, Err, MatchResult};
ghost use Rattle.ds_base.specs.Counts.{Rose};
ghost use Rattle.ds_base.specs.Marks.{Raised, MayBeRaised};
ghost use Rattle.lms_sig.specs.Merkle.{public_key};
ghost use Rattle.lms_sig.specs.Parameters.{height};
ghost use Rattle.lms_state.specs.Signers.{IsLeafOf, leaves_of, next_signature, one_leaf_on};
ghost use Rattle.lms_state.specs.Once.{Traced};

use crate::fault::SignFault;
use ds_base::{Failed, Keeper};
use lms_sig::TreeKey;
use std::marker::Model;

/// A signing key, and the leaf at which it signs next. Leaves are spent in order, each once.
///
/// The keeper holds, under the key's identifier, the number of leaves that may be spent. No two signers of one identifier
/// may be alive at a time: the four types of one secret and index share a mark and one-time keys.
#[derive(Drop)]
pub struct Signer {
    key: TreeKey,
    next: u32,
}

impl Model for Signer {
    ghost use Rattle.std.specs.Prelude.{◌≤◌};
    ghost use Rattle.lms_state.specs.Signers.{Signing, leaves_of};

    ghost Value = { Signing };

    ghost view = { λ s. record { key = s.key; next = s.next } };

    ghost invariant = { λ s. s.next ≤ leaves_of s.key };
}

/// How many leaves the key has.
fn leaf_count(key: &TreeKey) -> u32
    ensures { result ≡ leaves_of key.now }
{
    1 << key.height()
}

impl Signer {
    /// A signer of this key. Its next leaf is the mark of the key's identifier, or the number of leaves where that is
    /// less. It takes no memory.
    ///
    /// # Errors
    ///
    /// `Failed` where the keeper failed to tell the mark: its count of faults rose. The key comes back as it was.
    pub fn resume<K: Keeper>(key: TreeKey, keeper: &mut K) -> Result<Signer, (TreeKey, Failed)>
        ensures faults { K.faults keeper.old ≤ K.faults keeper.new }
        ensures tells { K.tells keeper.new ≡ K.tells keeper.old }
        ensures key { MatchResult result (λ signer. signer.key ≡ key) (λ refused. refused.0 ≡ key) }
        ensures leaf { IfOk result (λ signer. IsLeafOf (K.tells keeper.old) key signer.next) }
        ensures err { OnErr result (Rose (K.faults keeper.old) (K.faults keeper.new)) }
        ensures traced { (before : Option ℕ) (released : List ℕ) → Traced (K.tells keeper.old) key before released
            → IfOk result (λ signer. Traced (K.tells keeper.new) key (Some signer.next) released) }
    {
        let leaves = leaf_count(&key);
        match keeper.mark(&key.id()) {
            Ok(mark) => {
                let next = mark.min(u64::from(leaves)) as u32;
                Ok(Signer { key, next })
            }
            Err(failed) => Err((key, failed)),
        }
    }

    /// The signature of a message at the next leaf. The mark is raised past that leaf before the signature is handed
    /// out, so that a signer that is resumed later doesn't sign there again. A signature has at most 2,508 bytes.
    ///
    /// # Errors
    ///
    /// - `Spent`: no leaf is left.
    /// - `NoMemory`: there is no memory for the signature.
    /// - `KeeperFault`: the keeper failed to raise the mark, and its count of faults rose. The mark may be raised all the
    ///   same, and then a signer that is resumed leaves this leaf out.
    ///
    /// The signer is unchanged after each of them, and so is the keeper after the first two.
    #[tactic(auto, using(crate::proofs::Lengths::short_signature))]
    pub fn sign<K: Keeper>(&mut self, keeper: &mut K, message: &[u8]) -> Result<Vec<u8>, SignFault>
        ensures faults { K.faults keeper.old ≤ K.faults keeper.new }
        ensures ok { IfOk result (λ made. made.items ≡ next_signature self.old message.now) }
        ensures short { IfOk result (λ made. length made.items ≤ 2508) }
        ensures next { OnOk result (self.new ≡ one_leaf_on self.old) }
        ensures raised { OnOk result (Raised (K.tells keeper.old) self.old.key.id (self.old.next + 1) (K.tells keeper.new)) }
        ensures err { OnErr result (self.new ≡ self.old) }
        ensures spent { (result ≡ Err SignFault.Spent) ↔ (self.old.next ≡ leaves_of self.old.key) }
        ensures untouched { ((result ≡ Err SignFault.Spent) ⊎ (result ≡ Err SignFault.NoMemory)) → keeper.new ≡ keeper.old }
        ensures fault { result ≡ Err SignFault.KeeperFault → Rose (K.faults keeper.old) (K.faults keeper.new) }
        ensures may_be_raised { result ≡ Err SignFault.KeeperFault
            → MayBeRaised (K.tells keeper.old) self.old.key.id (self.old.next + 1) (K.tells keeper.new) }
        ensures traced { (released : List ℕ) → Traced (K.tells keeper.old) self.old.key (Some self.old.next) released
            → MatchResult result
            (λ _. Traced (K.tells keeper.new) self.old.key (Some self.new.next) (self.old.next ∷ released))
            (λ _. Traced (K.tells keeper.new) self.old.key (Some self.new.next) released) }
    {
        if self.left() == 0 {
            return Err(SignFault::Spent);
        }
        let made = match self.key.sign_at(self.next, message) {
            Ok(made) => made,
            Err(_) => return Err(SignFault::NoMemory),
        };
        let after = self.next + 1;
        if keeper.raise(&self.key.id(), u64::from(after)).is_err() {
            return Err(SignFault::KeeperFault);
        }
        self.next = after;
        Ok(made)
    }

    /// How many leaves are left.
    pub fn left(&self) -> u32
        ensures left { result ≡ leaves_of self.now.key - self.now.next }
        ensures next { self.now.next ≤ leaves_of self.now.key }
    {
        leaf_count(&self.key) - self.next
    }

    /// The leaf at which it signs next; the number of leaves where none is left.
    pub fn next(&self) -> u32
        ensures next { result ≡ self.now.next }
        ensures most { result ≤ leaves_of self.now.key }
    {
        self.next
    }

    /// The public key, 56 bytes.
    pub fn public(&self) -> [u8; 56]
        ensures { result ≡ public_key self.now.key.params self.now.key.seed self.now.key.id }
    {
        self.key.public()
    }

    /// The key's identifier, 16 bytes: the name of its mark.
    pub fn id(&self) -> [u8; 16]
        ensures { result ≡ self.now.key.id }
    {
        self.key.id()
    }

    /// The height of the key's tree, h: it has 2^h leaves.
    pub fn height(&self) -> u32
        ensures { result ≡ height self.now.key.params.lms }
    {
        self.key.height()
    }

    /// The key.
    pub fn key(&self) -> &TreeKey
        ensures { result.now ≡ self.now.key }
    {
        &self.key
    }
}

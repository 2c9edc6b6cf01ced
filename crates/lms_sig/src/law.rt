//! What holds of the definitions alone.

ghost use Rattle.std.specs.Prelude.{◌≡◌, ◌<◌, List, ℕ, length};
ghost use Rattle.lms_sig.specs.Good.{IsGood};
ghost use Rattle.lms_sig.specs.Merkle.{public_key, signature};
ghost use Rattle.lms_sig.specs.Parameters.{leaf_count};
ghost use Rattle.lms_sig.specs.declared.params.Params.{Params};

/// Each signature of the definition is good under the public key of the definition: at every leaf, of
/// every message, for all four pairs of types. It does nothing: its contract is the law.
pub fn signatures_are_good()
    ensures { (params : Params) (seed id message : List ℕ) (q : ℕ) → length id ≡ 16
        → q < leaf_count params.lms
        → IsGood (public_key params seed id) message (signature params seed id q message) }
{}

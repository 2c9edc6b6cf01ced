//! What holds of the definitions alone.
#![tactic(auto)]

ghost use Rattle.std.specs.Prelude.{ℕ, List, Option};
ghost use Rattle.lms_sig.specs.Keys.{Key};
ghost use Rattle.lms_state.specs.Once.{Once, Trace};

/// Whatever happened to a key over a keeper whose marks nobody lowers, with one live signer an identifier at a time: no leaf
/// occurs in two released signatures. The four types of one secret and index have one identifier, one mark and the same
/// one-time keys, so a signer of another type counts too. It does nothing: its contract is the law.
pub fn no_leaf_twice()
    ensures { (key : Key) (marks : List ℕ → ℕ) (signer : Option ℕ) (released : List ℕ) → Trace key marks signer released → Once released }
{}

//! What holds of the definitions alone.

ghost use Rattle.std.specs.Prelude.{◌≡◌, ℕ, ◌<◌, true, length};
ghost use Rattle.lms_sig.specs.Keys.{Key};
ghost use Rattle.lms_sig.specs.Merkle.{public_key};
ghost use Rattle.lms_state.specs.Signers.{leaves_of};
ghost use Rattle.ds_label.specs.declared.category.PubKey.{PubKey};
ghost use Rattle.ds_label.specs.declared.category.Category.{Category};
ghost use Rattle.ds_cert.specs.Good.{is_good_delegation};
ghost use Rattle.ds_desk.specs.Signing.{signed_at};

/// Each delegation that a host makes is good: it is signed at a leaf of the key whose public key is the host's. It does
/// nothing: its contract is the law.
pub fn made_delegations_are_good()
    ensures { (key : Key) (leaf : ℕ) (here : PubKey) (c : Category) (to : PubKey) (from until : ℕ)
        → here.0 ≡ public_key key.params key.seed key.id → length key.id ≡ 16 → leaf < leaves_of key
        → is_good_delegation (signed_at key leaf here c to from until) ≡ true }
{}

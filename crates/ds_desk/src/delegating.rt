//! Delegations that the host makes.
#![tactic(auto)]

ghost use Rattle.std.specs.Prelude.{◌≡◌, ◌≢◌, ◌⊎◌, ℕ, ◌+◌, ◌<◌, ◌≤◌, ◌++◌, [], ◌∷◌, List, Some, Err, true, length, nat_lt, IfOk, IfErr, OnOk, OnErr, MatchResult};
ghost use Rattle.ds_base.specs.Counts.{Rose};
ghost use Rattle.ds_base.specs.Marks.{Raised, MayBeRaised};
ghost use Rattle.lms_state.specs.Once.{Traced};
ghost use Rattle.lms_state.specs.Signers.{leaves_of, next_signature, one_leaf_on};
ghost use Rattle.ds_label.specs.declared.rule.Rule.TheVariants as rules;
ghost use Rattle.ds_cert.specs.NoDoubles.{with_delegation};
ghost use Rattle.ds_cert.specs.Ranges.{DelegationRange};
ghost use Rattle.ds_model.specs.Scheme.{Scheme};
ghost use Rattle.ds_model.specs.Plan.{HostPlan};
ghost use Rattle.ds_model.specs.FirstRule.{unless, first_rule};
ghost use Rattle.ds_model.specs.Desk.{Delegating, Made, Delegated, store_limit};
ghost use Rattle.ds_desk.specs.Desks.{IsKept, kept_of, last_stamp, entered, entry_of};
ghost use Rattle.ds_desk.specs.Replies.{AnswersOver, EntersOver, entry_for, reply_for};

use crate::act::{DeskChange, DeskEntry};
use crate::draft::{Signed, draft_of, signed_of};
use crate::fault::DeskFault;
use crate::importing::keep_delegation;
use crate::state::DeskState;
use ds_base::Keeper;
use ds_chain::{CERT_LIMIT, CertBook};
use ds_label::{Category, PubKey, Rule};
use ds_script::Actor;
use ds_wire::Bytes;
use lms_state::{SignFault, Signer};

/// The first rule that refuses to make a delegation.
fn delegate_rule(store: &CertBook, signer: &Signer) -> Option<Rule>
    ensures { result ≡ first_rule (unless (nat_lt (length store.now.items) store_limit) rules.StoreFull
        ∷ unless (nat_lt signer.now.next (leaves_of signer.now.key)) rules.KeySpent ∷ []) }
{
    if store.len() >= CERT_LIMIT {
        return Some(Rule::StoreFull);
    }
    if signer.left() == 0 {
        return Some(Rule::KeySpent);
    }
    None
}

impl DeskState {
    /// A delegation by this host, with the signature at the identity key's next leaf, spelled: `to` may act for the category
    /// from the moment `from` on and before `until`. It joins the delegations that are kept, unless it is there, and those
    /// that the host made. The spelling has at most 2,704 bytes.
    ///
    /// # Errors
    ///
    /// The first of these rules that fails, which is entered:
    ///
    /// - `Refused(StoreFull)` where 256 delegations are kept.
    /// - `Refused(KeySpent)` where the identity key has no leaf left.
    ///
    /// `KeeperFault` where the keeper failed to raise the key's mark: its count of faults rose, and the mark may be raised all
    /// the same. `NoMemory` where memory runs out. After both nothing is entered, and the desk is as it was; after `NoMemory`
    /// and a refusal the keeper is too.
    pub fn delegate<K: Keeper>(
        &mut self,
        stamp: u64,
        who: Actor,
        keeper: &mut K,
        category: Category,
        to: PubKey,
        from: u64,
        until: u64,
    ) -> Result<Bytes, DeskFault>
        requires kept { IsKept self.old }
        requires later { last_stamp self.old < stamp }
        ensures answer { (s : Scheme) (plan : HostPlan) → AnswersOver Made result (reply_for s plan (kept_of self.old) (Delegating category to from until)) }
        ensures entry { (s : Scheme) (plan : HostPlan) → EntersOver result (kept_of self.old)
            (entered stamp who (entry_for s plan (kept_of self.old) (Delegating category to from until)) (kept_of self.old)) (kept_of self.new) }
        ensures short { IfOk result (λ bytes. length bytes ≤ 2704) }
        ensures kept { IsKept self.new }
        ensures last { last_stamp self.new ≤ stamp }
        ensures faults { K.faults keeper.old ≤ K.faults keeper.new }
        ensures raised { OnOk result (Raised (K.tells keeper.old) self.old.signer.key.id (self.old.signer.next + 1) (K.tells keeper.new)) }
        ensures untouched { IfErr result (λ e. e ≢ DeskFault.KeeperFault → keeper.new ≡ keeper.old) }
        ensures fault { result ≡ Err DeskFault.KeeperFault → Rose (K.faults keeper.old) (K.faults keeper.new) }
        ensures may_be_raised { result ≡ Err DeskFault.KeeperFault
            → MayBeRaised (K.tells keeper.old) self.old.signer.key.id (self.old.signer.next + 1) (K.tells keeper.new) }
        ensures traced { (released : List ℕ) → Traced (K.tells keeper.old) self.old.signer.key (Some self.old.signer.next) released
            → MatchResult result
            (λ _. Traced (K.tells keeper.new) self.old.signer.key (Some self.new.signer.next) (self.old.signer.next ∷ released))
            (λ _. Traced (K.tells keeper.new) self.old.signer.key (Some self.new.signer.next) released) }
    {
        self.history.reserve()?;
        if let Some(rule) = delegate_rule(&self.store, &self.signer) {
            self.refuse(stamp, who, rule);
            return Err(DeskFault::Refused(rule));
        }
        let draft = draft_of(
            self.issued.allocator(),
            self.here,
            category,
            to,
            from,
            until,
        )?;
        self.store.reserve()?;
        self.issued.reserve()?;
        match self.signer.sign(keeper, draft.part.as_slice()) {
            Ok(made) => Ok(self.issue(stamp, who, signed_of(draft, made))),
            Err(SignFault::KeeperFault) => Err(DeskFault::KeeperFault),
            Err(SignFault::NoMemory) => Err(DeskFault::NoMemory),
            Err(SignFault::Spent) => unreachable!(),
        }
    }

    /// Keeps a delegation that was signed, and enters it. It takes no memory. Answers its spelling.
    fn issue(&mut self, stamp: u64, who: Actor, made: Signed) -> Bytes
        requires room { (0 < self.old.history.spare) × (0 < self.old.store.spare) × (0 < self.old.issued.spare) }
        requires few { nat_lt (length self.old.store.items) store_limit ≡ true }
        requires range { DelegationRange made.kept }
        requires same { (made.issued ≡ made.kept) × (made.entered ≡ made.kept) }
        ensures spelling { result ≡ made.spelling }
        ensures store { self.new.store.items ≡ with_delegation made.kept self.old.store.items }
        ensures issued { self.new.issued.items ≡ self.old.issued.items ++ made.kept ∷ [] }
        ensures entry { self.new.history.items ≡ self.old.history.items ++ entry_of stamp who (Delegated made.kept) ∷ [] }
        ensures last { last_stamp self.new ≤ stamp }
        ensures host { (self.new.here ≡ self.old.here) × (self.new.moment ≡ self.old.moment) × (self.new.signer ≡ self.old.signer) }
        ensures lists { (self.new.addresses ≡ self.old.addresses) × (self.new.table ≡ self.old.table) × (self.new.opening ≡ self.old.opening) }
    {
        let Signed {
            kept,
            issued,
            entered,
            spelling,
        } = made;
        keep_delegation(&mut self.store, kept);
        self.issued.push_reserved(issued);
        let act = DeskChange::Delegated(entered);
        self.history.enter(DeskEntry { stamp, who, act });
        spelling
    }
}

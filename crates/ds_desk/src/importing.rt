//! Certificates from elsewhere.
#![tactic(auto)]

ghost use Rattle.std.specs.Prelude.{◌≡◌, ◌<◌, ◌≤◌, ◌||◌, [], ◌∷◌, Some, true, length, nat_lt};
ghost use Rattle.ds_label.specs.declared.rule.Rule.TheVariants as rules;
ghost use Rattle.ds_cert.specs.declared.cert.Cert.TheVariants as certs;
ghost use Rattle.ds_cert.specs.Good.{is_good_delegation, is_good_address};
ghost use Rattle.ds_cert.specs.NoDoubles.{is_kept, is_kept_address, with_delegation, with_address};
ghost use Rattle.ds_cert.specs.Ranges.{DelegationRange, AddressRange};
ghost use Rattle.ds_model.specs.Scheme.{Scheme};
ghost use Rattle.ds_model.specs.Plan.{HostPlan};
ghost use Rattle.ds_model.specs.FirstRule.{unless, first_rule};
ghost use Rattle.ds_model.specs.Desk.{Importing, Done, store_limit, address_limit};
ghost use Rattle.ds_desk.specs.Desks.{IsKept, kept_of, last_stamp, entered};
ghost use Rattle.ds_desk.specs.Replies.{Answers, Enters, entry_for, reply_for, import_for, reply_to};

use crate::act::{DeskChange, DeskEntry};
use crate::fault::EntryFault;
use crate::state::DeskState;
use ds_cert::{Address, Cert, CertFault, Delegation};
use ds_chain::{ADDRESS_LIMIT, AddressList, CERT_LIMIT, CertBook};
use ds_label::Rule;
use ds_script::Actor;

/// The first rule that refuses a delegation.
fn delegation_rule(store: &CertBook, new: &Delegation) -> Option<Rule>
    ensures { result ≡ first_rule (unless (is_good_delegation new.now) rules.BadCert
        ∷ unless (is_kept new.now store.now.items || nat_lt (length store.now.items) store_limit) rules.StoreFull ∷ []) }
{
    if !new.is_good() {
        return Some(Rule::BadCert);
    }
    if store.is_kept(new) || store.len() < CERT_LIMIT {
        return None;
    }
    Some(Rule::StoreFull)
}

/// The first rule that refuses an address certificate.
fn address_rule(addresses: &AddressList, cert: &Address) -> Option<Rule>
    requires { AddressRange cert.now }
    ensures { result ≡ first_rule (unless (is_good_address cert.now) rules.BadCert
        ∷ unless (is_kept_address cert.now addresses.now.items || nat_lt (length addresses.now.items) address_limit) rules.StoreFull ∷ []) }
{
    if !cert.is_good() {
        return Some(Rule::BadCert);
    }
    if addresses.is_kept(cert) || addresses.len() < ADDRESS_LIMIT {
        return None;
    }
    Some(Rule::StoreFull)
}

/// Keeps a delegation, for which there is room.
pub(crate) fn keep_delegation(store: &mut CertBook, new: Delegation)
    requires range { DelegationRange new }
    requires few { (is_kept new store.old.items || nat_lt (length store.old.items) store_limit) ≡ true }
    requires room { 0 < store.old.spare }
    ensures { store.new.items ≡ with_delegation new store.old.items }
{
    let Ok(()) = store.add(new) else {
        unreachable!();
    };
}

/// Keeps an address certificate, for which there is room.
fn keep_address(addresses: &mut AddressList, new: Address)
    requires range { AddressRange new }
    requires few { (is_kept_address new addresses.old.items || nat_lt (length addresses.old.items) address_limit) ≡ true }
    requires room { 0 < addresses.old.spare }
    ensures { addresses.new.items ≡ with_address new addresses.old.items }
{
    let Ok(()) = addresses.add(new) else {
        unreachable!();
    };
}

impl DeskState {
    /// Keeps the delegation or address certificate that the bytes spell. Its signature must be good; whether it is valid now
    /// isn't asked. One that is kept already changes nothing.
    ///
    /// # Errors
    ///
    /// The first of these rules that fails, which is entered:
    ///
    /// - `Refused(BadCert)` where the bytes spell no delegation and no address certificate, or its signature isn't good.
    /// - `Refused(StoreFull)` where a new delegation finds 256 kept, or a new address certificate 64.
    ///
    /// `NoMemory` where memory runs out.
    pub fn import(&mut self, stamp: u64, who: Actor, cert: &[u8]) -> Result<(), EntryFault>
        requires kept { IsKept self.old }
        requires later { last_stamp self.old < stamp }
        ensures answer { (s : Scheme) (plan : HostPlan) → Answers (λ _. Done) result (reply_for s plan (kept_of self.old) (Importing cert.now)) }
        ensures entry { (s : Scheme) (plan : HostPlan) → Enters result (kept_of self.old)
            (entered stamp who (entry_for s plan (kept_of self.old) (Importing cert.now)) (kept_of self.old)) (kept_of self.new) }
        ensures kept { IsKept self.new }
        ensures last { last_stamp self.new ≤ stamp }
    {
        match Cert::decode(self.issued.allocator(), cert) {
            Ok(Cert::Delegation(new)) => self.take_delegation(stamp, who, new),
            Ok(Cert::Address(new)) => self.take_address(stamp, who, new),
            Err(CertFault::NoMemory) => Err(EntryFault::NoMemory),
            Err(CertFault::Malformed(_)) => {
                self.history.reserve()?;
                self.refuse(stamp, who, Rule::BadCert);
                Err(EntryFault::Refused(Rule::BadCert))
            }
        }
    }

    /// Keeps a delegation, or enters the rule that refuses it.
    fn take_delegation(&mut self, stamp: u64, who: Actor, new: Delegation) -> Result<(), EntryFault>
        requires kept { IsKept self.old }
        requires later { last_stamp self.old < stamp }
        requires range { DelegationRange new }
        ensures answer { (s : Scheme) (plan : HostPlan) → Answers (λ _. Done) result (reply_to s plan (kept_of self.old) (Some (certs.Delegation new))) }
        ensures entry { (s : Scheme) → Enters result (kept_of self.old)
            (entered stamp who (import_for s (kept_of self.old) (Some (certs.Delegation new))) (kept_of self.old)) (kept_of self.new) }
        ensures kept { IsKept self.new }
        ensures last { last_stamp self.new ≤ stamp }
    {
        self.history.reserve()?;
        if let Some(rule) = delegation_rule(&self.store, &new) {
            self.refuse(stamp, who, rule);
            return Err(EntryFault::Refused(rule));
        }
        let copy = new.copy()?;
        self.store.reserve()?;
        keep_delegation(&mut self.store, new);
        let act = DeskChange::Imported(Cert::Delegation(copy));
        self.history.enter(DeskEntry { stamp, who, act });
        Ok(())
    }

    /// Keeps an address certificate, or enters the rule that refuses it.
    fn take_address(&mut self, stamp: u64, who: Actor, new: Address) -> Result<(), EntryFault>
        requires kept { IsKept self.old }
        requires later { last_stamp self.old < stamp }
        requires range { AddressRange new }
        ensures answer { (s : Scheme) (plan : HostPlan) → Answers (λ _. Done) result (reply_to s plan (kept_of self.old) (Some (certs.Address new))) }
        ensures entry { (s : Scheme) → Enters result (kept_of self.old)
            (entered stamp who (import_for s (kept_of self.old) (Some (certs.Address new))) (kept_of self.old)) (kept_of self.new) }
        ensures kept { IsKept self.new }
        ensures last { last_stamp self.new ≤ stamp }
    {
        self.history.reserve()?;
        if let Some(rule) = address_rule(&self.addresses, &new) {
            self.refuse(stamp, who, rule);
            return Err(EntryFault::Refused(rule));
        }
        let copy = new.copy()?;
        self.addresses.reserve()?;
        keep_address(&mut self.addresses, new);
        let act = DeskChange::Imported(Cert::Address(copy));
        self.history.enter(DeskEntry { stamp, who, act });
        Ok(())
    }
}

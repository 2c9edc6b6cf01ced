//! What a process may do.

ghost use Rattle.std.specs.Prelude.{◌≡◌, ◌≢◌, ◌^◌, ◌<◌, ◌≤◌, [], ◌∷◌, IsTrue, IfOk, OnOk, OnErr, Err};
ghost use Rattle.std.specs.Bool.{OnTrue, OnFalse};
ghost use Rattle.std.specs.Result.{result_err};
ghost use Rattle.ds_label.specs.Flow.{IsRising};
ghost use Rattle.ds_label.specs.Names.{by_name};
ghost use Rattle.ds_label.specs.Numbers.{by_number};
ghost use Rattle.ds_script.specs.Names.{IsNewNumber};
ghost use Rattle.ds_script.specs.Process.{ProcView, made_process, granted_process};
ghost use Rattle.ds_model.specs.Mapping.{home_number as number_of_home, next_category};
ghost use Rattle.ds_model.specs.ProcessRules.{may_send as send_rule, may_take as take_rule, may_publish as publish_rule, may_relabel as relabel_rule, may_make as make_rule, can_grant};
ghost use Rattle.ds_map.specs.Labels.{named, have_names};
ghost use Rattle.ds_map.specs.Translation.{UnderNames, UnderTables};
ghost use Rattle.ds_monitor.specs.Judgements.{Answers};

use crate::fault::ProcFault;
use crate::judging::{judge_label, judge_make, judge_publish, judge_send, judge_take};
use ds_label::{Category, Kind, LocalLabel, PubKey, Rule};
use ds_map::home_number;
use ds_script::Proc;

/// How many numbers stand between the categories of one process and those of the next.
const MADE_PER_PROCESS: u64 = 1 << 32;

/// What a process may do. Labels are in the host's own numbers. Under each table that has names for these numbers, the
/// answers are those of the rules over the names.
pub trait Monitor {
    ghost seen: { Self → ProcView };

    /// Whether the process may send a message with this label that grants this ownership and this clearance. Takes no memory.
    /// Refusals, in this order: `NotFlow`, the process's label doesn't flow to the message's under its ownership;
    /// `GrantNotOwned`, a granted ownership isn't owned; `ClearNotHeld`, a granted clearance is neither held nor owned.
    fn may_send(&self, label: &LocalLabel, own: &LocalLabel, clear: &LocalLabel) -> Result<(), Rule>
        ensures rule { let p = (seen self.now).process in
            result_err result ≡ send_rule by_number p.label p.own p.clear label.now own.now clear.now }
        ensures names { let p = (seen self.now).process in
            UnderNames (p.label ∷ p.own ∷ p.clear ∷ label.now ∷ own.now ∷ clear.now ∷ [])
            (λ names. result_err result ≡ send_rule by_name (names p.label) (names p.own) (names p.clear) (names label.now) (names own.now) (names clear.now)) };

    /// Whether the process may take from a mailbox with this label. Takes no memory. `NotFlowToTaker` where the mailbox's
    /// label doesn't flow to the process's under its ownership.
    fn may_take(&self, label: &LocalLabel) -> Result<(), Rule>
        ensures rule { let p = (seen self.now).process in
            result_err result ≡ take_rule by_number label.now p.label p.own }
        ensures names { let p = (seen self.now).process in
            UnderNames (label.now ∷ p.label ∷ p.own ∷ [])
            (λ names. result_err result ≡ take_rule by_name (names label.now) (names p.label) (names p.own)) };

    /// Whether the process may act in public. Takes no memory. `NotPublic` where it doesn't own a secrecy category of its label.
    fn may_publish(&self) -> Result<(), Rule>
        ensures rule { let p = (seen self.now).process in
            result_err result ≡ publish_rule by_number p.label p.own }
        ensures names { let p = (seen self.now).process in
            UnderNames (p.label ∷ p.own ∷ [])
            (λ names. result_err result ≡ publish_rule by_name (names p.label) (names p.own)) };

    /// The process's label becomes this one. Refused by `LabelRefused` where the label doesn't flow to it under the
    /// ownership, or where a new secrecy category is neither in the clearance nor in the ownership. Takes no memory. After a
    /// refusal the process is the same.
    fn set_label(&mut self, label: LocalLabel) -> Result<(), ProcFault>
        ensures rule { let p = (seen self.old).process in
            Answers (relabel_rule by_number p.label p.own p.clear label) result }
        ensures names { let p = (seen self.old).process in
            UnderNames (p.label ∷ p.own ∷ p.clear ∷ label ∷ [])
            (λ names. Answers (relabel_rule by_name (names p.label) (names p.own) (names p.clear) (names label)) result) }
        ensures memory { result ≢ Err ProcFault.NoMemory }
        ensures ok { OnOk result ((seen self.new).process ≡ record (seen self.old).process { label = label }) }
        ensures err { OnErr result ((seen self.new).process ≡ (seen self.old).process) }
        ensures room { (seen self.new).room ≡ (seen self.old).room }
        ensures spare { (seen self.new).spare ≡ (seen self.old).spare };

    /// A new category of this kind, made by the process with that index on the host with this key: its number is the index
    /// times 2^32, and how many the process made before. The process owns it and may use it. It needs an index below 2^30,
    /// and usable names of which no other has the new category's number; the host's table tells that it is so.
    /// Refused by `TooMany` where the ownership would get a 65th member or the process has made 2^32 - 1. `NoMemory` where
    /// memory runs out. After either the process is the same.
    fn new_category(&mut self, here: &PubKey, index: u32, kind: Kind) -> Result<Category, ProcFault>
        requires index { index < 2 ^ 30 }
        requires new { let p = (seen self.old).process in let category = next_category here.now index p.made kind in
            IsNewNumber category (number_of_home category) p.names }
        ensures rule { let p = (seen self.old).process in
            Answers (make_rule by_number p.own p.made (number_of_home (next_category here.now index p.made kind))) result }
        ensures names { let p = (seen self.old).process in
            UnderTables here.now (p.own ∷ [])
            (λ names. IsRising by_number p.own → Answers (make_rule by_name (names p.own) p.made (next_category here.now index p.made kind)) result) }
        ensures category { IfOk result (λ category. category ≡ next_category here.now index (seen self.old).process.made kind) }
        ensures ok { IfOk result (λ category. (seen self.new).process ≡ made_process category (number_of_home category) (seen self.old).process) }
        ensures err { OnErr result ((seen self.new).process ≡ (seen self.old).process) }
        ensures room { (seen self.old).room ≤ (seen self.new).room }
        ensures spare { (seen self.new).spare ≡ (seen self.old).spare };

    /// A taken message's ownership and clearance join the process's, and whether they did: where either would get a 65th
    /// member nothing is granted. It needs room for a grant. Takes no memory.
    fn grant(&mut self, own: &LocalLabel, clear: &LocalLabel) -> bool
        requires { 0 < (seen self.old).spare }
        ensures fits { let p = (seen self.old).process in
            result ≡ can_grant by_number p.own p.clear own.now clear.now }
        ensures names { let p = (seen self.old).process in
            UnderNames (p.own ∷ p.clear ∷ own.now ∷ clear.now ∷ [])
            (λ names. IsRising by_number p.own → IsRising by_number p.clear → result ≡ can_grant by_name (names p.own) (names p.clear) (names own.now) (names clear.now)) }
        ensures granted { OnTrue result ((seen self.new).process ≡ granted_process own.now clear.now (seen self.old).process) }
        ensures refused { OnFalse result ((seen self.new).process ≡ (seen self.old).process) }
        ensures room { (seen self.new).room ≡ (seen self.old).room };
}

impl Monitor for Proc {
    ghost seen = { λ p. p };

    fn may_send(
        &self,
        label: &LocalLabel,
        own: &LocalLabel,
        clear: &LocalLabel,
    ) -> Result<(), Rule> {
        judge_send(self, label, own, clear)
    }

    fn may_take(&self, label: &LocalLabel) -> Result<(), Rule> {
        judge_take(self, label)
    }

    fn may_publish(&self) -> Result<(), Rule> {
        judge_publish(self.label(), self.own())
    }

    fn set_label(&mut self, label: LocalLabel) -> Result<(), ProcFault> {
        if let Err(rule) = judge_label(self.label(), self.own(), self.clear(), &label) {
            return Err(ProcFault::Refused(rule));
        }
        self.put_label(label);
        Ok(())
    }

    fn new_category(
        &mut self,
        here: &PubKey,
        index: u32,
        kind: Kind,
    ) -> Result<Category, ProcFault> {
        let category = Category {
            creator: *here,
            kind,
            number: index as u64 * MADE_PER_PROCESS + self.made() as u64,
        };
        let local = home_number(&category);
        if let Err(rule) = judge_make(self, local) {
            return Err(ProcFault::Refused(rule));
        }
        if self.make(category, local).is_err() {
            return Err(ProcFault::NoMemory);
        }
        Ok(category)
    }

    fn grant(&mut self, own: &LocalLabel, clear: &LocalLabel) -> bool {
        Proc::grant(self, own, clear)
    }
}

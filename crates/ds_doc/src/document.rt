//! Reads documents.

ghost use Rattle.std.specs.Prelude.{◌≡◌, ◌<◌, ℕ, Ok, map, length, slice_index_or, None, IfOk};
ghost use Rattle.serde_json.specs.View.{view};
ghost use Rattle.ds_plan.specs.Keys.{identity_key, identity_of};
ghost use Rattle.ds_plan.specs.Documents.{IsDocument};
ghost use Rattle.ds_doc.specs.Draft.{draft_of};
ghost use Rattle.ds_doc.specs.Checking as checks;
ghost use Rattle.ds_doc.specs.Reading as readings;
ghost use Rattle.ds_doc.specs.Rules as of_rules;
ghost use Rattle.ds_doc.specs.Shapes as shapes;
ghost use Rattle.ds_doc.specs.Values as values;

use crate::draft::{Draft, DraftHost};
use crate::fault::{DocFault, Fault, lesser};
use crate::form::{Form, Object};
use crate::judge::judge;
use crate::reading::read_draft;
use crate::rules::{least_broken, least_over_full, tree_of};
use crate::spot::Spot;
use crate::values::{Keys, doc_of};
use ds_label::PubKey;
use ds_plan::{Doc, Secret};
use lms_sig::TreeKey;
use serde_json::Value;
use std::alloc::{AllocError, Global};
use std::thread;
use std::thread::Threads;

/// The document that the input says. `Refused` comes exactly where it breaks a rule, with the least code and its least
/// place.
pub fn read(alloc: Global, input: &[u8]) -> Result<Doc, DocFault>
    ensures answer { readings.Answers input.now result }
    ensures document { IfOk result IsDocument }
{
    let (doc, _trees) = read_keyed(alloc, input)?;
    Ok(doc)
}

/// The document that the input says, and the identity key of each host, none of a silent one. Each key is made once.
pub fn read_keyed(alloc: Global, input: &[u8]) -> Result<(Doc, Vec<Option<TreeKey>>), DocFault>
    ensures answer { readings.Answers input.now (readings.first_of result) }
    ensures document { IfOk result (λ r. IsDocument r.0) }
    ensures keys { IfOk result (λ r. r.1.items ≡ map identity_key r.0.hosts) }
{
    match Value::from_slice(alloc, input) {
        Ok(value) => read_value(alloc, &value),
        Err(error) => if error.is_memory() {
            Err(DocFault::NoMemory)
        } else {
            Err(DocFault::Refused(1, 0))
        },
    }
}

fn is_misshapen(form: Option<Fault>) -> bool
    ensures { result ≡ readings.is_misshapen form }
{
    match form {
        Some(fault) => fault.code < 5,
        None => false,
    }
}

/// The least fault by limits and rules, where the forms are kept.
fn by_rules(alloc: Global, form: Option<Fault>, draft: &Draft) -> Result<Option<Fault>, AllocError>
    ensures { IfOk result (λ f. f ≡ readings.or_by_rules (shapes.lesser form (shapes.least (of_rules.over_full draft.now))) draft.now) }
{
    let full = least_over_full(alloc, draft)?;
    match lesser(form, full) {
        Some(fault) => Ok(Some(fault)),
        None => least_broken(alloc, draft),
    }
}

/// A running host's identity key.
fn tree_if_running(alloc: Global, host: &DraftHost) -> Result<Option<TreeKey>, AllocError>
    ensures { IfOk result (λ t. t ≡ identity_of host.now.identity host.now.secret.value) }
{
    match &host.secret.value {
        Secret::Seed(secret) => Ok(Some(tree_of(alloc, host.identity, secret)?)),
        Secret::Key(_) => Ok(None),
    }
}

/// A host's key, of which the tree is there where it runs.
fn key_of(host: &DraftHost, tree: &Option<TreeKey>) -> PubKey
    requires { tree.now ≡ readings.identity host.now }
    ensures { result ≡ values.host_key host.now }
{
    match &host.secret.value {
        Secret::Seed(_) => match tree {
            Some(tree) => PubKey(tree.public()),
            None => unreachable!(),
        },
        Secret::Key(key) => *key,
    }
}

/// The identity key of each host, made one after another; none of a silent one.
fn trees_in_turn(alloc: Global, hosts: &[DraftHost]) -> Result<Vec<Option<TreeKey>>, AllocError>
    ensures { IfOk result (λ trees. trees.items ≡ map readings.identity hosts.now) }
{
    let mut trees = Vec::new(alloc);
    for host in hosts {
        trees.push(tree_if_running(alloc, host)?)?;
    }
    Ok(trees)
}

/// The identity key of each host, or that memory ran out for it; made at once, each in a thread of its own where one can be made.
fn tree_results<R: Threads + Sync>(
    rt: &R,
    alloc: Global,
    hosts: &[DraftHost],
) -> Result<Vec<Result<Option<TreeKey>, AllocError>>, AllocError>
    ensures count { IfOk result (λ made. length made.items ≡ length hosts.now) }
    ensures each { IfOk result (λ made. (i : ℕ) (d : _) (h : _) → i < length hosts.now
        → IfOk (slice_index_or made.items i d) (λ tree. tree ≡ readings.identity (slice_index_or hosts.now i h))) }
{
    thread::map_indices(
        rt,
        alloc,
        hosts.len(),
        &|at| tree_if_running(alloc, &hosts[at]),
    )
}

/// What was made, if all could be made.
fn all_made(
    alloc: Global,
    made: Vec<Result<Option<TreeKey>, AllocError>>,
) -> Result<Vec<Option<TreeKey>>, AllocError>
    ensures { IfOk result (λ all. map Ok all.items ≡ made.items) }
{
    let mut all = Vec::new(alloc);
    for one in made {
        all.push(one?)?;
    }
    Ok(all)
}

/// The identity key of each host, made at once, each in a thread of its own where one can be made; none of a silent one.
fn trees_at_once<R: Threads + Sync>(
    rt: &R,
    alloc: Global,
    hosts: &[DraftHost],
) -> Result<Vec<Option<TreeKey>>, AllocError>
    ensures { IfOk result (λ trees. trees.items ≡ map readings.identity hosts.now) }
{
    let made = tree_results(rt, alloc, hosts)?;
    let trees = all_made(alloc, made)?;
    Ok(trees)
}

/// The hosts' keys, by the identity keys of the running ones.
fn keys_by(
    alloc: Global,
    hosts: &[DraftHost],
    trees: &[Option<TreeKey>],
) -> Result<Keys, AllocError>
    requires { trees.now ≡ map readings.identity hosts.now }
    ensures { IfOk result (λ keys. keys ≡ values.host_keys hosts.now) }
{
    let mut keys = Keys::new(alloc);
    for (at, host) in hosts.iter().enumerate() {
        keys.push(key_of(host, &trees[at]))?;
    }
    Ok(keys)
}

/// The document that a draft is, by the identity keys of its running hosts.
#[tactic(auto, unfolding(crate::specs::Values::doc_of))]
fn keyed(alloc: Global, draft: &Draft, trees: &[Option<TreeKey>]) -> Result<Doc, AllocError>
    requires { trees.now ≡ map readings.identity draft.now.hosts }
    ensures { IfOk result (λ doc. doc ≡ values.doc_of draft.now) }
{
    let keys = keys_by(alloc, draft.hosts.as_slice(), trees)?;
    doc_of(alloc, &keys, draft)
}

/// The draft, unless there is a fault.
fn unless_broken(fault: Option<Fault>, draft: Draft) -> Result<Draft, DocFault>
    ensures { checks.CheckedBy fault draft result }
{
    match fault {
        Some(fault) => Err(DocFault::Refused(fault.code, fault.at)),
        None => Ok(draft),
    }
}

fn refusal(form: Option<Fault>) -> DocFault
    ensures { result ≡ readings.refusal form }
{
    match form {
        Some(fault) => DocFault::Refused(fault.code, fault.at),
        None => DocFault::NoMemory,
    }
}

/// The draft of a value, unless it breaks a rule.
#[tactic(auto, unfolding(crate::specs::Reading::fault_of, crate::specs::Reading::fault_by))]
fn checked(alloc: Global, value: &Value) -> Result<Draft, DocFault>
    ensures { checks.Checks (view value.now) result }
{
    let form = judge(alloc, Form::Object(Object::Document), 0, value)?.fault;
    if is_misshapen(form) {
        return Err(refusal(form));
    }
    let root = Spot { at: 0, value };
    let draft = read_draft(alloc, &root)?;
    let fault = by_rules(alloc, form, &draft)?;
    unless_broken(fault, draft)
}

/// What a value says, and the identity keys, made one after another.
#[tactic(auto, using(crate::proofs::Checked::checked_ok, crate::proofs::Checked::checked_err))]
fn read_parts(alloc: Global, value: &Value) -> Result<(Doc, Vec<Option<TreeKey>>), DocFault>
    ensures answer { readings.AnswersBy (readings.answer_of (view value.now)) (readings.first_of result) }
    ensures trees { IfOk result (λ r. r.1.items ≡ map readings.identity (draft_of (readings.root_of (view value.now))).hosts) }
{
    match checked(alloc, value) {
        Ok(draft) => {
            let trees = trees_in_turn(alloc, draft.hosts.as_slice())?;
            let doc = keyed(alloc, &draft, trees.as_slice())?;
            Ok((doc, trees))
        }
        Err(fault) => Err(fault),
    }
}

/// What a value says, and the identity keys, made at once.
#[tactic(auto, using(crate::proofs::Checked::checked_ok, crate::proofs::Checked::checked_err))]
fn read_parts_at_once<R: Threads + Sync>(
    rt: &R,
    alloc: Global,
    value: &Value,
) -> Result<(Doc, Vec<Option<TreeKey>>), DocFault>
    ensures answer { readings.AnswersBy (readings.answer_of (view value.now)) (readings.first_of result) }
    ensures trees { IfOk result (λ r. r.1.items ≡ map readings.identity (draft_of (readings.root_of (view value.now))).hosts) }
{
    match checked(alloc, value) {
        Ok(draft) => {
            let trees = trees_at_once(rt, alloc, draft.hosts.as_slice())?;
            let doc = keyed(alloc, &draft, trees.as_slice())?;
            Ok((doc, trees))
        }
        Err(fault) => Err(fault),
    }
}

#[tactic(auto, using(crate::proofs::Answered::documented))]
pub(crate) fn read_value(
    alloc: Global,
    value: &Value,
) -> Result<(Doc, Vec<Option<TreeKey>>), DocFault>
    ensures answer { readings.AnswersBy (readings.answer_of (view value.now)) (readings.first_of result) }
    ensures document { IfOk result (λ r. IsDocument r.0) }
    ensures keys { IfOk result (λ r. r.1.items ≡ map identity_key r.0.hosts) }
{
    read_parts(alloc, value)
}

#[tactic(auto, using(crate::proofs::Answered::documented))]
pub(crate) fn read_value_at_once<R: Threads + Sync>(
    rt: &R,
    alloc: Global,
    value: &Value,
) -> Result<(Doc, Vec<Option<TreeKey>>), DocFault>
    ensures answer { readings.AnswersBy (readings.answer_of (view value.now)) (readings.first_of result) }
    ensures document { IfOk result (λ r. IsDocument r.0) }
    ensures keys { IfOk result (λ r. r.1.items ≡ map identity_key r.0.hosts) }
{
    read_parts_at_once(rt, alloc, value)
}

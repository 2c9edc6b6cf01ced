//! The delegations that a host keeps, with an index and a cache for their chains.

ghost use Rattle.std.specs.Prelude.{◌≡◌, ℕ, ◌≤◌, ◌<◌, ◌++◌, List, [], ◌∷◌, ◌↔◌, ◌≢◌, ◌⊎◌, Option, false, length, Err, Contains, IfOk, IsOk, OnOk, OnErr, IfSome, IsSome, IsTrue, IsErrOf, if◌then◌else◌, is_some};
ghost use Rattle.ds_cert.specs.NoDoubles.{is_kept as is_kept_in, with_delegation};
ghost use Rattle.ds_cert.specs.Ranges.{DelegationRange};
ghost use Rattle.ds_chain.specs.Answers.{HasHeld, category_of, key_of};
ghost use Rattle.ds_chain.specs.Chain.{IsShortestChain};
ghost use Rattle.ds_chain.specs.Delegated.{chain_to, hops_of_list, key_holds};
ghost use Rattle.ds_chain.specs.declared.question.Question.{Question as QuestionValue};

use crate::cert_list::CertList;
use crate::chain::Chain;
use crate::delegated::search_postings;
use crate::fault::ListFault;
use crate::place_index::PlaceIndex;
use crate::question::Question;
use ds_cert::Delegation;
use ds_label::{Category, PubKey};
use lru::LruCache;
use std::alloc::{AllocError, Global};
use std::marker::Model;
use std::num::NonZeroUsize;

/// Most answers of the cache.
const ANSWER_LIMIT: usize = 1_024;

/// Answers to questions. None is the answer where the key doesn't hold.
type AnswerCache = LruCache<Question, Option<Chain>>;

/// The delegations that a host keeps, as a [`CertList`] has them, with an index from categories to places, and a cache of at most
/// 1,024 answers at one moment. Contracts see the list, and whether there is room for one more (`spare`, 0 or 1).
///
/// Each answer in the cache is what a search of the list gives at the cache's moment.
#[derive(Drop)]
pub struct CertBook {
    list: CertList,
    index: PlaceIndex,
    moment: u64,
    answers: AnswerCache,
}

impl Model for CertBook {
    ghost use Rattle.std.specs.Prelude.{min};
    ghost use Rattle.ds_cert.specs.declared.delegation.Delegation.{Delegation};
    ghost use Rattle.ds_chain.specs.Answers.{AreAnswers};
    ghost use Rattle.ds_chain.specs.Postings.{AreIndexed};
    ghost use Rattle.ds_chain.specs.Stored.{Stored};

    ghost Value = { Stored Delegation };

    ghost view = { λ b. record { items = b.list.items; spare = min b.list.spare b.index.spare } };

    ghost invariant = { λ b. AreIndexed b.list.items b.index.items × AreAnswers b.list.items b.moment b.answers.entries };
}

impl CertBook {
    /// No delegation. `AllocError` where memory runs out.
    pub fn new(alloc: Global) -> Result<CertBook, AllocError>
        ensures { IfOk result (λ b. b.items ≡ []) }
    {
        let Some(limit) = NonZeroUsize::new(ANSWER_LIMIT) else {
            unreachable!();
        };
        Ok(CertBook {
            list: CertList::new(alloc),
            index: PlaceIndex::new(alloc),
            moment: 0,
            answers: LruCache::sparse(alloc, limit)?,
        })
    }

    /// The delegations as a list.
    pub fn list(&self) -> &CertList
        ensures { result.now.items ≡ self.now.items }
    {
        &self.list
    }

    /// How many delegations there are.
    pub fn len(&self) -> usize
        ensures count { result ≡ length self.now.items }
        ensures limit { length self.now.items ≤ 256 }
    {
        self.list.len()
    }

    /// Whether there is none.
    pub fn is_empty(&self) -> bool
        ensures { IsTrue result ↔ (self.now.items ≡ []) }
    {
        self.list.is_empty()
    }

    /// Whether the delegation is in the list.
    pub fn is_kept(&self, cert: &Delegation) -> bool
        ensures { result ≡ is_kept_in cert.now self.now.items }
    {
        self.list.is_kept(cert)
    }

    /// Makes room for one delegation. After `AllocError`, which says that memory ran out, the delegations are the same.
    pub fn reserve(&mut self) -> Result<(), AllocError>
        ensures same { self.new.items ≡ self.old.items }
        ensures room { OnOk result (self.new.spare ≡ 1) }
        ensures there { 0 < self.old.spare → IsOk result }
        ensures kept { self.old.spare ≤ self.new.spare }
    {
        self.list.reserve()?;
        self.index.reserve()
    }

    /// Adds a delegation in the ranges of the format behind the others. One that is there already changes nothing. A new one
    /// empties the cache. `ListFull` comes exactly where it would be the 257th, `NoMemory` where memory runs out, which it
    /// can't after `reserve`. After either nothing changed.
    pub fn add(&mut self, cert: Delegation) -> Result<(), ListFault>
        requires { DelegationRange cert }
        ensures ok { OnOk result (self.new.items ≡ with_delegation cert self.old.items) }
        ensures there { IsTrue (is_kept_in cert self.old.items) → IsOk result }
        ensures full { IsErrOf result ListFault.ListFull ↔ (256 < length (with_delegation cert self.old.items)) }
        ensures reserved { 0 < self.old.spare → result ≢ Err ListFault.NoMemory }
        ensures err { OnErr result (self.new.items ≡ self.old.items) }
    {
        let full = self.list.is_full();
        if self.list.is_kept(&cert) {
            return Ok(());
        }
        if full {
            return Err(ListFault::ListFull);
        }
        if self.reserve().is_err() {
            return Err(ListFault::NoMemory);
        }
        self.keep(cert);
        Ok(())
    }

    /// Adds a new delegation, for which there is room, and empties the cache. Takes no memory.
    fn keep(&mut self, cert: Delegation)
        requires range { DelegationRange cert }
        requires few { length self.old.items < 256 }
        requires new { is_kept_in cert self.old.items ≡ false }
        requires room { 0 < self.old.spare }
        ensures { self.new.items ≡ self.old.items ++ cert ∷ [] }
    {
        let count = self.list.len();
        empty_unless(&mut self.answers, false);
        self.index.keep(cert.category, count as u32);
        self.list.keep(cert);
    }

    /// The shortest chain of delegations from the category's creator to a key, and of these the least place by place; none
    /// exactly where the key doesn't hold the category. A delegation counts where it is for the category, valid at the moment
    /// `now` and good. Places run through the book's list and then `extra`. The creator's own chain is empty. The list stays
    /// as it is. `AllocError` where memory runs out.
    ///
    /// Where `extra` is empty the answer may come from the cache, which keeps answers of one moment: one at another moment
    /// empties it. An answer for which the cache finds no memory is given all the same.
    pub fn search(
        &mut self,
        extra: &CertList,
        now: u64,
        category: &Category,
        key: &PubKey,
    ) -> Result<Option<Chain>, AllocError>
        ensures answer { IfOk result (λ answer. answer ≡ chain_to (self.old.items ++ extra.now.items) now category.now key.now) }
        ensures holds { IfOk result (λ answer. IsSome answer ↔ IsTrue (key_holds (self.old.items ++ extra.now.items) now category.now key.now)) }
        ensures shortest { IfOk result (λ answer. IfSome answer (λ chain. IsShortestChain (hops_of_list now category.now (self.old.items ++ extra.now.items)) category.now.creator chain key.now)) }
        ensures same { self.new ≡ self.old }
    {
        let alone = extra.is_empty();
        if alone {
            return self.search_alone(extra, now, category, key);
        }
        self.find(extra, now, category, key)
    }

    /// Whether the key holds the category at the moment `now`, by the book's delegations and those of `extra`. The list stays as
    /// it is. `AllocError` where memory runs out.
    pub fn holds(
        &mut self,
        extra: &CertList,
        now: u64,
        category: &Category,
        key: &PubKey,
    ) -> Result<bool, AllocError>
        ensures holds { IfOk result (λ b. b ≡ key_holds (self.old.items ++ extra.now.items) now category.now key.now) }
        ensures same { self.new ≡ self.old }
    {
        if extra.is_empty() {
            return self.holds_alone(extra, now, category, key);
        }
        Ok(self.search(extra, now, category, key)?.is_some())
    }

    /// Whether the key holds where `extra` is empty: by the cache if it has the answer, which isn't copied then.
    fn holds_alone(
        &mut self,
        extra: &CertList,
        now: u64,
        category: &Category,
        key: &PubKey,
    ) -> Result<bool, AllocError>
        requires { extra.now.items ≡ [] }
        ensures holds { IfOk result (λ b. b ≡ key_holds (self.old.items ++ extra.now.items) now category.now key.now) }
        ensures same { self.new ≡ self.old }
    {
        let question = Question::new(category, key);
        if let Some(held) = self.recall_held(now, question) {
            return Ok(held);
        }
        Ok(self.search(extra, now, category, key)?.is_some())
    }

    /// Whether the cache's answer at a moment is a chain, if it has one.
    fn recall_held(&mut self, now: u64, question: Question) -> Option<bool>
        ensures held { IfSome result (λ held. held ≡ is_some (chain_to self.old.items now (category_of question) (key_of question))) }
        ensures same { self.new ≡ self.old }
    {
        let other = self.moment != now;
        if other {
            return None;
        }
        held_in(&mut self.answers, question)
    }

    /// The chain, by the index alone.
    fn find(
        &self,
        extra: &CertList,
        now: u64,
        category: &Category,
        key: &PubKey,
    ) -> Result<Option<Chain>, AllocError>
        ensures { IfOk result (λ answer. answer ≡ chain_to (self.now.items ++ extra.now.items) now category.now key.now) }
    {
        let postings = self.index.postings(category);
        search_postings(&self.list, postings, extra, now, category, key)
    }

    /// The chain where `extra` is empty: from the cache if it is there, else by the index, and then the cache has it too.
    fn search_alone(
        &mut self,
        extra: &CertList,
        now: u64,
        category: &Category,
        key: &PubKey,
    ) -> Result<Option<Chain>, AllocError>
        requires { extra.now.items ≡ [] }
        ensures answer { IfOk result (λ answer. answer ≡ chain_to (self.old.items ++ extra.now.items) now category.now key.now) }
        ensures same { self.new ≡ self.old }
    {
        let question = Question::new(category, key);
        if let Some(answer) = self.recall(now, question)? {
            return Ok(answer);
        }
        let answer = self.find(extra, now, category, key)?;
        self.remember(now, question, &answer);
        Ok(answer)
    }

    /// The answer that the cache has at a moment, if it has one.
    fn recall(&mut self, now: u64, question: Question) -> Result<Option<Option<Chain>>, AllocError>
        ensures answer { IfOk result (λ found. IfSome found (λ answer. answer ≡ chain_to self.old.items now (category_of question) (key_of question))) }
        ensures same { self.new ≡ self.old }
    {
        let other = self.moment != now;
        if other {
            return Ok(None);
        }
        recall_in(&mut self.answers, question)
    }

    /// Keeps an answer at a moment, if there is memory for it. Another moment empties the cache before.
    fn remember(&mut self, now: u64, question: Question, answer: &Option<Chain>)
        requires { answer.now ≡ chain_to self.old.items now (category_of question) (key_of question) }
        ensures { self.new ≡ self.old }
    {
        let stay = self.moment == now;
        empty_unless(&mut self.answers, stay);
        self.moment = now;
        put_answer(&mut self.answers, question, answer);
    }
}

/// Empties a cache, unless its answers stay.
fn empty_unless(answers: &mut AnswerCache, stay: bool)
    ensures { answers.new.entries ≡ (if stay then answers.old.entries else []) }
{
    if !stay {
        answers.clear();
    }
}

/// The answer to a question, if the cache has it.
fn recall_in(
    answers: &mut AnswerCache,
    question: Question,
) -> Result<Option<Option<Chain>>, AllocError>
    ensures answer { IfOk result (λ found. IfSome found (λ answer. Contains answers.old.entries (question, answer))) }
    ensures fewer { (entry : QuestionValue × Option (List ℕ)) → Contains answers.new.entries entry → Contains answers.old.entries entry }
{
    match answers.get(&question) {
        Some(answer) => Ok(Some(copy_of(answer)?)),
        None => Ok(None),
    }
}

/// Whether the answer to a question is a chain, if the cache has one.
fn held_in(answers: &mut AnswerCache, question: Question) -> Option<bool>
    ensures held { IfSome result (HasHeld answers.old.entries question) }
    ensures fewer { (entry : QuestionValue × Option (List ℕ)) → Contains answers.new.entries entry → Contains answers.old.entries entry }
{
    match answers.get(&question) {
        Some(answer) => Some(answer.is_some()),
        None => None,
    }
}

/// Keeps an answer in a cache, if there is memory for it.
fn put_answer(answers: &mut AnswerCache, question: Question, answer: &Option<Chain>)
    ensures { (entry : QuestionValue × Option (List ℕ)) → Contains answers.new.entries entry → Contains answers.old.entries entry ⊎ (entry ≡ (question, answer.now)) }
{
    if let Ok(copy) = copy_of(answer) {
        let _ = answers.put(question, copy);
    }
}

/// An equal answer. `AllocError` where memory runs out.
fn copy_of(answer: &Option<Chain>) -> Result<Option<Chain>, AllocError>
    ensures { IfOk result (λ copy. copy ≡ answer.now) }
{
    match answer {
        Some(chain) => Ok(Some(chain.copy()?)),
        None => Ok(None),
    }
}

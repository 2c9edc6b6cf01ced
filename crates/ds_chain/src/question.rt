//! What a search is asked.

ghost use Rattle.std.specs.Prelude.{◌≡◌, ◌++◌, [], ◌∷◌, take, drop};
ghost use Rattle.std.specs.Hash as fed;
ghost use Rattle.std.specs.Cmp.Rules.{hashing};
ghost use Rattle.std.proofs.Common.{rules};
ghost use Rattle.ds_chain.specs.Answers.{category_of, key_of};

use ds_label::{Category, Kind, PubKey};
use std::hash::{Hash, Hasher};

/// By which chain a key holds a category: the category in its parts, and the key.
#[derive(Clone, Copy, PartialEq, Eq)]
pub(crate) struct Question {
    creator: [u8; 56],
    secret: bool,
    number: u64,
    key: [u8; 56],
}

/// The category's number and the first eight bytes of the key's identifier tell nearly all questions of a host apart.
impl Hash for Question {
    ghost hash_input = { λ q. fed.u64 q.number ++ take 8 (drop 8 q.key) ∷ [] };

    ghost respects_eq = { Prim.search (hashing, rules) };

    fn hash<H: Hasher>(&self, state: &mut H) {
        state.write_u64(self.number);
        state.write(&self.key[8..16]);
    }
}

impl Question {
    /// The question by which chain the key holds the category.
    pub(crate) fn new(category: &Category, key: &PubKey) -> Question
        ensures category { category_of result ≡ category.now }
        ensures key { key_of result ≡ key.now }
    {
        Question {
            creator: category.creator.0,
            secret: category.kind == Kind::Secrecy,
            number: category.number,
            key: key.0,
        }
    }
}

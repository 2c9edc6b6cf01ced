//! The category s, and labels of it.

ghost use Rattle.std.specs.Prelude.{◌≡◌, [], ◌∷◌, IfOk};
ghost use Rattle.ds_gen.specs.Generated.{key_by, s, types};

use ds_label::{Category, Kind, Label, LabelFault, PubKey};
use ds_plan::CategoryList;
use lms_sig::{LmsType, OtsType, Params, TreeKey, derive};
use std::alloc::{AllocError, Global};

/// The types of all keys.
pub(crate) const TYPES: Params = Params {
    lms: LmsType::H10,
    ots: OtsType::W4,
};

/// The secret of the first host.
const SECRET_A: [u8; 32] = [1; 32];

/// The key of the first host.
#[tactic(auto, unfolding(crate::specs::Generated::key_by))]
fn key_a(alloc: Global) -> Result<PubKey, AllocError>
    ensures { IfOk result (λ k. k ≡ key_by 1) }
{
    let (seed, id) = derive(&SECRET_A, 0);
    let key = TreeKey::make(alloc, TYPES, seed, id)?;
    Ok(PubKey(key.public()))
}

/// The first host's category s. `AllocError` where memory runs out.
pub(crate) fn category_s(alloc: Global) -> Result<Category, AllocError>
    ensures { IfOk result (λ c. c ≡ s) }
{
    Ok(Category {
        creator: key_a(alloc)?,
        kind: Kind::Secrecy,
        number: 0,
    })
}

/// The label of one category. `AllocError` where memory runs out.
pub(crate) fn label_of(alloc: Global, category: Category) -> Result<Label, AllocError>
    ensures { IfOk result (λ l. l ≡ category ∷ []) }
{
    let mut label = Label::new(alloc);
    label.push_last(category)?;
    Ok(label)
}

/// The list of one category. `AllocError` where memory runs out.
pub(crate) fn rows_of(alloc: Global, category: Category) -> Result<CategoryList, AllocError>
    ensures { IfOk result (λ l. l ≡ category ∷ []) }
{
    let mut rows = CategoryList::new(alloc);
    rows.push(category)?;
    Ok(rows)
}

//! Values at their places.

ghost use Rattle.std.specs.Prelude.{◌≡◌, map, option_map, IfOk};
ghost use Rattle.ds_doc.specs.Places as places;
ghost use Rattle.ds_doc.specs.Seen.{seen};

use crate::judge::has;
use crate::size::size;
use serde_json::Value;
use std::alloc::{AllocError, Global};

/// A value of a document and its place.
#[derive(Clone, Copy, Drop)]
pub(crate) struct Spot<'v> {
    /// The place.
    pub(crate) at: u32,
    /// The value.
    pub(crate) value: &'v Value,
}

impl<'v> Spot<'v> {
    /// The member of this name.
    #[tactic(auto, unfolding(crate::specs::Places::member))]
    pub(crate) fn member(&self, name: &str) -> Option<Spot<'v>>
        ensures { option_map seen result ≡ places.member name.now (seen self.now) }
    {
        let members = self.value.as_object()?;
        if !has(members, name) {
            return None;
        }
        let mut at = self.at.saturating_add(1);
        for (key, value) in members.iter() {
            if key.as_str() == name {
                return Some(Spot { at, value });
            }
            at = at.saturating_add(size(value));
        }
        None
    }

    /// The items of a list; none of another value.
    #[tactic(auto, unfolding(crate::specs::Places::items))]
    pub(crate) fn items(&self, alloc: Global) -> Result<Vec<Spot<'v>>, AllocError>
        ensures { IfOk result (λ v. map seen v.items ≡ places.items (seen self.now)) }
    {
        let mut spots = Vec::new(alloc);
        if let Some(items) = self.value.as_array() {
            let mut at = self.at.saturating_add(1);
            for value in items {
                spots.push(Spot { at, value })?;
                at = at.saturating_add(size(value));
            }
        }
        Ok(spots)
    }

    /// The items of the list that the member of this name is.
    #[tactic(auto, unfolding(crate::specs::Places::member_items))]
    pub(crate) fn member_items(
        &self,
        alloc: Global,
        name: &str,
    ) -> Result<Vec<Spot<'v>>, AllocError>
        ensures { IfOk result (λ v. map seen v.items ≡ places.member_items name.now (seen self.now)) }
    {
        match self.member(name) {
            Some(member) => member.items(alloc),
            None => Ok(Vec::new(alloc)),
        }
    }

    /// The bytes of a text; none of another value.
    #[tactic(auto, unfolding(crate::specs::Places::text))]
    pub(crate) fn text(&self) -> &'v [u8]
        ensures { result.now ≡ places.text (seen self.now) }
    {
        match self.value.as_str() {
            Some(text) => text.as_bytes(),
            None => &[],
        }
    }

    /// The bytes of the text that the member of this name is.
    #[tactic(auto, unfolding(crate::specs::Places::member_text))]
    pub(crate) fn member_text(&self, name: &str) -> &'v [u8]
        ensures { result.now ≡ places.member_text name.now (seen self.now) }
    {
        match self.member(name) {
            Some(member) => member.text(),
            None => &[],
        }
    }

    /// A number; 0 of another value.
    #[tactic(auto, unfolding(crate::specs::Places::number))]
    pub(crate) fn number(&self) -> u64
        ensures { result ≡ places.number (seen self.now) }
    {
        self.value.as_u64().unwrap_or(0)
    }

    /// The number that the member of this name is, or the default where there is none.
    #[tactic(auto, unfolding(crate::specs::Places::member_number))]
    pub(crate) fn member_number(&self, name: &str, default: u64) -> u64
        ensures { result ≡ places.member_number name.now default (seen self.now) }
    {
        match self.member(name) {
            Some(member) => member.number(),
            None => default,
        }
    }
}

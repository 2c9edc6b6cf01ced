ghost use Rattle.std.specs.Prelude.{◌≡◌, length, option_copied, slice_get, IfOk};

use std::alloc::AllocError;
use std::marker::Model;

/// A chain of certificates from a category's creator to a key: the places of the certificates, in order.
#[derive(Drop)]
pub struct Chain {
    places: Vec<u32>,
}

impl Model for Chain {
    ghost use Rattle.std.specs.Prelude.{ℕ, List, vec_items};

    ghost Value = { List ℕ };

    ghost view = { λ chain. chain.places.items };
}

impl Chain {
    /// The chain of the certificates at these places.
    pub(crate) fn new(places: Vec<u32>) -> Self
        ensures { result ≡ places.items }
    {
        Chain { places }
    }

    /// How many certificates the chain has.
    pub fn len(&self) -> usize
        ensures { result ≡ length self.now }
    {
        self.places.len()
    }

    /// The place of the certificate at a place of the chain, from 0.
    pub fn get(&self, place: usize) -> Option<&u32>
        ensures { option_copied result ≡ slice_get self.now place }
    {
        self.places.get(place)
    }

    /// An equal chain. `AllocError` where memory runs out.
    pub fn copy(&self) -> Result<Chain, AllocError>
        ensures { IfOk result (λ chain. chain ≡ self.now) }
    {
        Ok(Chain {
            places: self.places.as_slice().to_vec(*self.places.allocator())?,
        })
    }

    /// The places, from the creator's certificate on. None for the creator's own chain.
    pub fn places(&self) -> &[u32]
        ensures { result.now ≡ self.now }
    {
        &self.places
    }
}

//! A world as its parts.
#![tactic(auto)]

ghost use Rattle.std.specs.Prelude.{◌≡◌};
ghost use Rattle.ds_world.specs.Inside.{IsFit, state_of};

use crate::parts::WorldParts;
use crate::world::World;

impl World {
    /// The world that these parts are, which fit as those of every world do. It takes no memory.
    pub fn from_parts(parts: WorldParts) -> World
        requires { IsFit parts }
        ensures { result ≡ state_of parts }
    {
        World { parts }
    }

    /// Its parts, which fit. It takes no memory.
    pub fn into_parts(self) -> WorldParts
        ensures fit { IsFit result }
        ensures state { state_of result ≡ self }
    {
        self.parts
    }
}

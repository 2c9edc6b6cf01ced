//! Names of shared objects.

ghost use Rattle.std.specs.Prelude.{◌≡◌};
ghost use Rattle.ds_turn.specs.Records.{box_name, desk_name, inlet_name, lane_name};

use ds_merge::ObjectName;

/// The name of a host's desk.
pub(crate) fn desk_name(host: u32) -> ObjectName
    ensures { result ≡ desk_name host }
{
    ObjectName {
        host,
        kind: 1,
        id: 0,
    }
}

/// The name of the mailbox with this slot.
pub(crate) fn box_name(host: u32, slot: u32) -> ObjectName
    ensures { result ≡ box_name host slot }
{
    ObjectName {
        host,
        kind: 2,
        id: slot,
    }
}

/// The name of the lane with this number.
pub(crate) fn lane_name(host: u32, number: u32) -> ObjectName
    ensures { result ≡ lane_name host number }
{
    ObjectName {
        host,
        kind: 3,
        id: number,
    }
}

/// The name of the inlet at this place.
pub(crate) fn inlet_name(host: u32, place: u32) -> ObjectName
    ensures { result ≡ inlet_name host place }
{
    ObjectName {
        host,
        kind: 4,
        id: place,
    }
}

//! What a host reads of a stream.

ghost use Rattle.std.specs.Prelude.{◌≡◌, ◌≤◌, ◌+◌, ◌++◌, [], ◌∷◌, drop, length, IfOk, IfSome, OnOk};
ghost use Rattle.std.specs.List.{All};
ghost use Rattle.ds_msg.specs.Ranges.{MessageRange};
ghost use Rattle.ds_msg.specs.Reading.{read_message};
ghost use Rattle.ds_frame.specs.Fields.{Finds, IsAmong};
ghost use Rattle.ds_frame.specs.Ranges.{BodiesRange};
ghost use Rattle.ds_model.specs.Keys.{same_key};
ghost use Rattle.ds_inlet.specs.Hosts.{IsItemInRange, admitted, message_or, messages_from, host_item, seen_reading};
ghost use Rattle.ds_inlet.specs.Connections.{AreSeenInRange, IsForHost};
ghost use Rattle.ds_inlet.specs.ItemInside.{seen_of};

use crate::names::InletNames;
use ds_cert::{CertFault, LaneCert};
use ds_frame::{Cause, Item, ReadFaultOrMemory, item_of};
use ds_label::PubKey;
use ds_msg::Message;
use ds_wire::Bytes;
use std::alloc::{AllocError, Global};
use std::collections::VecDeque;

/// What a host sees of an item of a stream.
#[derive(Debug, Drop)]
pub enum Seen {
    /// The lane certificate of a hello, for whose lane the host has an inlet.
    Hello(LaneCert),
    /// A frame's number and its messages.
    Frame(u32, VecDeque<Message>),
}

/// Whether both keys are equal.
fn is_same_key(a: &PubKey, b: &PubKey) -> bool
    ensures { result ≡ same_key a.now b.now }
{
    a == b
}

/// The lane certificate, where it leads to this host, which has an inlet for it.
fn admitted(
    here: &PubKey,
    inlets: &InletNames,
    lane: LaneCert,
) -> Result<LaneCert, ReadFaultOrMemory>
    ensures { Finds (λ x. x) result (admitted here.now inlets.now lane) }
{
    if !is_same_key(&lane.receiver, here) {
        return Err(ReadFaultOrMemory::Broken(Cause::HelloReceiver, 6));
    }
    if inlets.find(&lane).is_none() {
        return Err(ReadFaultOrMemory::Broken(Cause::NoInlet, 6));
    }
    Ok(lane)
}

/// The message that these bytes spell, which stand at that place.
fn message_at(alloc: Global, place: usize, bytes: &[u8]) -> Result<Message, ReadFaultOrMemory>
    ensures gives { Finds (λ x. x) result (message_or place (read_message bytes.now)) }
    ensures range { IfOk result MessageRange }
{
    match Message::decode(alloc, bytes) {
        Ok(message) => Ok(message),
        Err(CertFault::Malformed(_)) => Err(ReadFaultOrMemory::Broken(Cause::Body, place)),
        Err(CertFault::NoMemory) => Err(ReadFaultOrMemory::NoMemory),
    }
}

/// Appends a message. `AllocError` where memory runs out.
fn append(messages: &mut VecDeque<Message>, message: Message) -> Result<(), AllocError>
    ensures { OnOk result (messages.new.items ≡ messages.old.items ++ message ∷ []) }
{
    messages.push_back(message)?;
    Ok(())
}

/// The messages that these bytes spell, 16 at most and not too long. The first one's count stands at that place.
#[tactic(auto, using(crate::proofs::Messages::one_more))]
fn messages_of(
    alloc: Global,
    start: usize,
    bodies: &[Bytes],
) -> Result<VecDeque<Message>, ReadFaultOrMemory>
    requires start { start ≤ 11 }
    requires range { BodiesRange bodies.now }
    ensures gives { Finds (λ x. x.items) result (messages_from start bodies.now) }
    ensures range { IfOk result (λ x. All MessageRange x.items) }
{
    let mut messages = VecDeque::with_capacity(alloc, bodies.len())?;
    let mut place = start;
    for bytes in bodies {
        let message = message_at(alloc, place + 4, bytes.as_slice())?;
        append(&mut messages, message)?;
        place += 4 + bytes.len();
    }
    Ok(messages)
}

/// What the host sees of an item.
#[tactic(auto, unfolding(crate::specs::Hosts::host_item))]
fn host_item(
    alloc: Global,
    here: &PubKey,
    inlets: &InletNames,
    item: Item,
) -> Result<Seen, ReadFaultOrMemory>
    requires { IsItemInRange item }
    ensures gives { Finds seen_of result (host_item here.now inlets.now item) }
    ensures range { IfOk result (λ seen. AreSeenInRange (seen_of seen)) }
{
    match item {
        Item::Hello(lane) => {
            let lane = admitted(here, inlets, lane)?;
            Ok(Seen::Hello(lane))
        }
        Item::Frame(frame) => {
            let messages = messages_of(alloc, 11, frame.bodies.as_slice())?;
            Ok(Seen::Frame(frame.number, messages))
        }
    }
}

/// What the host sees of the item at the front, and how many bytes the item takes.
#[tactic(auto, unfolding(crate::specs::Hosts::seen_reading))]
pub(crate) fn seen_reading(
    alloc: Global,
    here: &PubKey,
    inlets: &InletNames,
    lane: &Option<LaneCert>,
    bytes: &[u8],
) -> Result<(Seen, usize), ReadFaultOrMemory>
    ensures gives { Finds (λ x. (seen_of x.0, drop x.1 bytes.now)) result (seen_reading here.now inlets.now lane.now bytes.now) }
    ensures size { IfOk result (λ x. x.1 ≤ length bytes.now) }
    ensures range { IfOk result (λ x. AreSeenInRange (seen_of x.0)) }
    ensures host { IfOk result (λ x. IsForHost inlets.now lane.now (seen_of x.0)) }
    ensures among { IsAmong (length bytes.now) result }
{
    let (item, size) = item_of(alloc, lane, bytes)?;
    let seen = host_item(alloc, here, inlets, item)?;
    Ok((seen, size))
}

//! Messages between exporters.

ghost use Rattle.std.specs.Prelude.{◌≡◌, ◌≤◌, length, IfOk, Ok};
ghost use Rattle.ds_cert.specs.Fields.{Answers, Gives, alone};
ghost use Rattle.ds_msg.specs.declared.message.Message.{Message};
ghost use Rattle.ds_msg.specs.Ranges.{MessageFits, MessageRange};
ghost use Rattle.ds_msg.specs.Reading.{message_at, read_message};
ghost use Rattle.ds_msg.specs.Spelling.{spelling_of_message};

use crate::certs::CertBytes;
use crate::fields::{certs_of, payload_of, slot_of};
use crate::writing::{append_certs, append_payload};
use ds_cert::{
    CertFault, ReadFault, append_label, at_place, byte_of, key_of, label_of, show_key, show_label,
};
use ds_label::{Label, PubKey};
use ds_wire::{Bytes, put_u8, put_u32};
use std::alloc::{AllocError, Global};

/// A message from a process of one host to a mailbox of another.
#[derive(Debug, Drop)]
pub struct Message {
    /// The receiving exporter's key.
    pub to: PubKey,
    /// The mailbox.
    pub slot: u32,
    /// The message's label.
    pub label: Label,
    /// The ownership that it grants.
    pub own: Label,
    /// The clearance that it grants.
    pub clear: Label,
    /// The delegations that its sender shows.
    pub certs: CertBytes,
    /// What it says.
    pub payload: Bytes,
}

impl Message {
    /// The one spelling, at most 72,229 bytes. `AllocError` where memory runs out.
    pub fn encode(&self) -> Result<Bytes, AllocError>
        requires { MessageRange self.now }
        ensures spelled { IfOk result (λ b. b ≡ spelling_of_message self.now) }
        ensures short { IfOk result (λ b. length b ≤ 72229) }
    {
        self.show_fits();
        let members = self.label.len() + self.own.len() + self.clear.len();
        let room = 69 + 65 * members + 2706 * self.certs.len() + self.payload.len();
        let mut out = Bytes::with_room(self.payload.allocator(), room)?;
        put_u8(&mut out, 6)?;
        out.append(&self.to.0)?;
        put_u32(&mut out, self.slot)?;
        append_label(&mut out, &self.label)?;
        append_label(&mut out, &self.own)?;
        append_label(&mut out, &self.clear)?;
        append_certs(&mut out, &self.certs)?;
        append_payload(&mut out, &self.payload)?;
        Ok(out)
    }

    /// A message, of which the whole input is the spelling. `Malformed` comes exactly where the input is none; its place is that
    /// of the first field at fault. A certificate that spells no delegation, or is there twice, is at fault where its bytes
    /// begin.
    pub fn decode(alloc: Global, input: &[u8]) -> Result<Message, CertFault>
        // What is read is spelled so.
        ensures found { IfOk result (λ x. MessageRange x × (input.now ≡ spelling_of_message x)) }
        // What is spelled so is read, unless memory runs out.
        ensures only { (x : Message) → MessageFits x → input.now ≡ spelling_of_message x → Answers {Y = Message} (λ y. y) result (Ok x) }
        // Which fault it is.
        ensures exact { Answers (λ y. y) result (read_message input.now) }
    {
        read(alloc, input)
    }

    /// Does nothing. Its contract is for proofs that use the laws: with certificates and a payload in range all fields are.
    pub fn show_fits(&self)
        requires { MessageRange self.now }
        ensures { MessageFits self.now }
    {
        show_key(&self.to);
        let _slot = self.slot;
        show_label(&self.label);
        show_label(&self.own);
        show_label(&self.clear);
    }

    /// An equal one. `AllocError` where memory runs out.
    pub fn copy(&self) -> Result<Message, AllocError>
        ensures { IfOk result (λ x. x ≡ self.now) }
    {
        Ok(Message {
            to: self.to,
            slot: self.slot,
            label: self.label.copy()?,
            own: self.own.copy()?,
            clear: self.clear.copy()?,
            certs: self.certs.copy()?,
            payload: self.payload.copy()?,
        })
    }
}

/// A message at the front of the bytes.
#[tactic(auto, unfolding(crate::specs::Reading::message_at))]
fn message_of(alloc: Global, bytes: &[u8]) -> Result<(Message, &[u8]), ReadFault>
    ensures { Gives (λ x. (x.0, x.1.now)) result (message_at bytes.now) }
{
    let (_, rest) = byte_of(bytes, 6, 6)?;
    let (to, rest) = key_of(rest)?;
    let (slot, rest) = slot_of(rest)?;
    let (label, rest) = label_of(alloc, rest)?;
    let (own, rest) = label_of(alloc, rest)?;
    let (clear, rest) = label_of(alloc, rest)?;
    let (certs, rest) = certs_of(alloc, rest)?;
    let (payload, rest) = payload_of(alloc, rest)?;
    Ok((
        Message {
            to,
            slot,
            label,
            own,
            clear,
            certs,
            payload,
        },
        rest,
    ))
}

/// A message that nothing follows.
fn message_alone(alloc: Global, bytes: &[u8]) -> Result<Message, ReadFault>
    ensures { Gives (λ x. x) result (alone (message_at bytes.now)) }
{
    let (x, rest) = message_of(alloc, bytes)?;
    if !rest.is_empty() {
        return Err(ReadFault::Left(rest.len()));
    }
    Ok(x)
}

/// A message, or the place of the first fault.
#[tactic(auto, unfolding(crate::specs::Reading::read_message))]
fn read(alloc: Global, input: &[u8]) -> Result<Message, CertFault>
    ensures { Answers (λ y. y) result (read_message input.now) }
{
    match message_alone(alloc, input) {
        Ok(x) => Ok(x),
        Err(fault) => Err(at_place(input.len(), fault)),
    }
}

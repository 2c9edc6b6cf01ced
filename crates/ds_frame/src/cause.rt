//! Why a stream is broken.

ghost use Rattle.std.specs.Prelude.{◌≡◌};

use thiserror::Error;

/// Why a stream is broken, in the order in which the causes are looked for. Each has its place in the stream.
#[derive(Clone, Copy, Debug, PartialEq, Eq, Error)]
pub enum Cause {
    /// The stream doesn't begin with `DSX1`; the place is that of the byte that differs.
    #[error("Magic")]
    Magic,
    /// The hello's count is out of range; the place is the count's.
    #[error("HelloCount")]
    HelloCount,
    /// The hello's bytes spell no lane certificate; the place is that of the field at fault.
    #[error("HelloCert")]
    HelloCert,
    /// The lane certificate's signature isn't good; the place is the certificate's.
    #[error("HelloSignature")]
    HelloSignature,
    /// The lane leads to another host; the place is the certificate's.
    #[error("HelloReceiver")]
    HelloReceiver,
    /// The host has no inlet for the lane; the place is the certificate's.
    #[error("NoInlet")]
    NoInlet,
    /// What should be a frame's tag isn't; the place is the tag's.
    #[error("Tag")]
    Tag,
    /// A frame has no message or more than 16; the place is that of their number.
    #[error("Count")]
    Count,
    /// A body's length is out of range; the place is the length's.
    #[error("Length")]
    Length,
    /// A signature's count is out of range; the place is the count's.
    #[error("SignatureCount")]
    SignatureCount,
    /// The counts in the body don't split it into that many messages; the place is the body's.
    #[error("Split")]
    Split,
    /// A signature doesn't begin with the frame's number; the place is the signature's.
    #[error("Leaf")]
    Leaf,
    /// A signature isn't good under the lane's key; the place is the signature's.
    #[error("Signature")]
    Signature,
    /// A message is malformed; the place is where its bytes begin.
    #[error("Body")]
    Body,
}

impl Cause {
    ghost use Rattle.ds_frame.specs.Causes.{cause_number, cause_name};

    /// The cause's number, from 1 to 14.
    pub fn number(&self) -> u8
        ensures { result ≡ cause_number self.now }
    {
        match self {
            Cause::Magic => 1,
            Cause::HelloCount => 2,
            Cause::HelloCert => 3,
            Cause::HelloSignature => 4,
            Cause::HelloReceiver => 5,
            Cause::NoInlet => 6,
            Cause::Tag => 7,
            Cause::Count => 8,
            Cause::Length => 9,
            Cause::SignatureCount => 10,
            Cause::Split => 11,
            Cause::Leaf => 12,
            Cause::Signature => 13,
            Cause::Body => 14,
        }
    }

    /// The cause's name, as it is printed.
    pub fn name(&self) -> &'static str
        ensures { result.now ≡ cause_name self.now }
    {
        match self {
            Cause::Magic => "Magic",
            Cause::HelloCount => "HelloCount",
            Cause::HelloCert => "HelloCert",
            Cause::HelloSignature => "HelloSignature",
            Cause::HelloReceiver => "HelloReceiver",
            Cause::NoInlet => "NoInlet",
            Cause::Tag => "Tag",
            Cause::Count => "Count",
            Cause::Length => "Length",
            Cause::SignatureCount => "SignatureCount",
            Cause::Split => "Split",
            Cause::Leaf => "Leaf",
            Cause::Signature => "Signature",
            Cause::Body => "Body",
        }
    }
}

//! What is asked.

use lms_sig::Params;

/// What is asked of a key, a signature, or a list of certificates.
#[derive(Clone, Copy, Debug, PartialEq, Eq)]
pub enum Command {
    /// The public key of these types and this index, and its next leaf. The input is a secret of 32 bytes in hex.
    Keygen(Params, u32),
    /// A signature by the key of these types and this index at its next leaf. The input is a secret of 32 bytes in hex, a
    /// line feed, and the message.
    Sign(Params, u32),
    /// Whether a signature is good. The input is a key of 56 bytes in hex, a line feed, a signature in hex, a line feed, and
    /// the message.
    Verify,
    /// The chain of certificates by which a key holds a category, at a moment in seconds, or at the present one. The input
    /// has lines in hex: the category, the key, and delegations.
    Chain(Option<u64>),
}

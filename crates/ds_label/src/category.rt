//! Categories, each named by the public key of its creator.

/// A public key: the 56 bytes of an LMS public key (RFC 8554, section 5.3) with SHA-256.
#[derive(Clone, Copy, Debug, PartialEq, Eq, PartialOrd, Ord)]
pub struct PubKey(pub [u8; 56]);

/// What a category protects. Secrecy comes before Integrity.
#[derive(Clone, Copy, Debug, PartialEq, Eq, PartialOrd, Ord)]
pub enum Kind {
    /// Who may learn.
    Secrecy,
    /// Who may have written.
    Integrity,
}

/// A category. Categories order by the bytes of the creator, then by kind, then by number.
#[derive(Clone, Copy, Debug, PartialEq, Eq, PartialOrd, Ord)]
pub struct Category {
    /// The key of the exporter that made it.
    pub creator: PubKey,
    /// Whether it is for secrecy or for integrity.
    pub kind: Kind,
    /// Which of the creator's categories of that kind.
    pub number: u64,
}

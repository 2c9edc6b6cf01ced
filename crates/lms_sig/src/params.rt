//! The parameter sets (RFC 8554, sections 4.1 and 5.1).

ghost use Rattle.std.specs.Prelude.{◌≡◌, ◌/◌};
ghost use Rattle.lms_sig.specs.Parameters.{chain_length, digit_count, height, leaf_count, left_shift, lms_code, lms_type, ots_code, ots_length, ots_type, signature_length, width};

/// The height of a tree: LMS_SHA256_M32_H5 (typecode 5, 32 leaves) or LMS_SHA256_M32_H10 (typecode
/// 6, 1,024 leaves).
#[derive(Clone, Copy, PartialEq, Eq, Debug)]
pub enum LmsType {
    H5,
    H10,
}

/// The width of a one-time key's digits: LMOTS_SHA256_N32_W4 (typecode 3, 67 chains of 15 steps) or
/// LMOTS_SHA256_N32_W8 (typecode 4, 34 chains of 255 steps).
#[derive(Clone, Copy, PartialEq, Eq, Debug)]
pub enum OtsType {
    W4,
    W8,
}

/// The two types of a key.
#[derive(Clone, Copy, PartialEq, Eq, Debug)]
pub struct Params {
    pub lms: LmsType,
    pub ots: OtsType,
}

impl LmsType {
    // The type that a typecode names.
    pub(crate) fn of_code(code: u32) -> Option<LmsType>
        ensures { result ≡ lms_type code }
    {
        if code == 5 {
            Some(LmsType::H5)
        } else if code == 6 {
            Some(LmsType::H10)
        } else {
            None
        }
    }

    pub(crate) fn code(self) -> u32
        ensures { result ≡ lms_code self }
    {
        match self {
            LmsType::H5 => 5,
            LmsType::H10 => 6,
        }
    }

    /// How many levels a tree has above its leaves.
    pub fn height(self) -> u32
        ensures { result ≡ height self }
    {
        match self {
            LmsType::H5 => 5,
            LmsType::H10 => 10,
        }
    }

    // How many leaves a tree has.
    pub(crate) fn leaf_count(self) -> u32
        ensures { result ≡ leaf_count self }
    {
        match self {
            LmsType::H5 => 32,
            LmsType::H10 => 1024,
        }
    }
}

impl OtsType {
    // The type that a typecode names.
    pub(crate) fn of_code(code: u32) -> Option<OtsType>
        ensures { result ≡ ots_type code }
    {
        if code == 3 {
            Some(OtsType::W4)
        } else if code == 4 {
            Some(OtsType::W8)
        } else {
            None
        }
    }

    pub(crate) fn code(self) -> u32
        ensures { result ≡ ots_code self }
    {
        match self {
            OtsType::W4 => 3,
            OtsType::W8 => 4,
        }
    }

    // How many chains a one-time key has.
    pub(crate) fn digit_count(self) -> u16
        ensures { result ≡ digit_count self }
    {
        match self {
            OtsType::W4 => 67,
            OtsType::W8 => 34,
        }
    }

    // How many steps a whole chain has.
    pub(crate) fn chain_length(self) -> u8
        ensures { result ≡ chain_length self }
    {
        match self {
            OtsType::W4 => 15,
            OtsType::W8 => 255,
        }
    }

    // How many digits of a hash the checksum adds up.
    pub(crate) fn hash_digits(self) -> usize
        ensures { result ≡ 256 / width self }
    {
        match self {
            OtsType::W4 => 64,
            OtsType::W8 => 32,
        }
    }

    // The bytes of a one-time signature.
    pub(crate) fn signature_length(self) -> usize
        ensures { result ≡ ots_length self }
    {
        match self {
            OtsType::W4 => 2180,
            OtsType::W8 => 1124,
        }
    }
}

impl Params {
    // The bytes of a signature.
    pub(crate) fn signature_length(self) -> usize
        ensures { result ≡ signature_length self }
    {
        8 + self.ots.signature_length() + 32 * self.lms.height() as usize
    }
}

//! Forms of texts.

ghost use Rattle.std.specs.Prelude.{◌≡◌, ◌+◌, drop, ◌≤◌, ◌<◌, ◌^◌, true, nat_le, IfSome, length, option_map};
ghost use Rattle.std.specs.List.{list_all};
ghost use Rattle.ds_doc.specs.Places.{same_text};
ghost use Rattle.ds_cert.specs.Ranges.{is_letter};
ghost use Rattle.ds_plan.specs.Documents as documents;
ghost use Rattle.ds_doc.specs.Texts as texts;
ghost use Rattle.ds_doc.specs.Seen.{named_seen};

use ds_label::Kind;

/// Most bytes of a host's name.
const NAME_MOST: usize = 32;

/// Most bytes of an address.
const ADDRESS_MOST: usize = 64;

/// Greatest place of a process in a category's name.
const PROCESS_MOST: u64 = 1_000_000;

/// Greatest number of a process's category.
const NUMBER_MOST: u64 = 2_147_483_647;

/// A category as a document names it.
#[derive(Clone, Copy, Drop)]
pub(crate) struct Named<'v> {
    /// The name of the host that made it.
    pub(crate) host: &'v [u8],
    /// The process that made it.
    pub(crate) process: u32,
    /// Which of the process's categories.
    pub(crate) number: u32,
    /// What it protects.
    pub(crate) kind: Kind,
}

/// Whether it is this word.
pub(crate) fn is_word(text: &[u8], word: &str) -> bool
    ensures { result ≡ same_text text.now word.now }
{
    text == word.as_bytes()
}

/// a to z, 0 to 9, `_`, `-`.
fn is_name_byte(byte: u8) -> bool
    ensures { result ≡ documents.is_name_byte byte }
{
    byte.is_ascii_lowercase() || byte.is_ascii_digit() || byte == b'_' || byte == b'-'
}

fn are_name_bytes(bytes: &[u8]) -> bool
    ensures { result ≡ list_all documents.is_name_byte bytes.now }
{
    bytes.iter().all(|b| is_name_byte(*b))
}

/// Whether it is the name of a host: 1 to 32 of a to z, 0 to 9, `_`, `-`.
pub(crate) fn is_name(bytes: &[u8]) -> bool
    ensures { result ≡ documents.is_name bytes.now }
{
    1 <= bytes.len() && bytes.len() <= NAME_MOST && are_name_bytes(bytes)
}

fn is_address_byte(byte: u8) -> bool
    ensures { result ≡ is_letter byte }
{
    !(byte < 0x21) && !(0x7e < byte)
}

fn are_address_bytes(bytes: &[u8]) -> bool
    ensures { result ≡ list_all is_letter bytes.now }
{
    bytes.iter().all(|b| is_address_byte(*b))
}

/// Whether it is an address: 1 to 64 bytes from 0x21 to 0x7e.
pub(crate) fn is_address(bytes: &[u8]) -> bool
    ensures { result ≡ documents.is_address bytes.now }
{
    1 <= bytes.len() && bytes.len() <= ADDRESS_MOST && are_address_bytes(bytes)
}

/// The number of a register: `r0` to `r7`.
pub(crate) fn register_of(bytes: &[u8]) -> Option<u8>
    ensures { result ≡ texts.register_of bytes.now }
{
    match bytes {
        [b'r', digit] => match *digit {
            b'0'..=b'7' => Some(*digit - b'0'),
            _ => None,
        },
        _ => None,
    }
}

/// What a category of this letter protects: `s` secrecy, `i` integrity.
pub(crate) fn kind_of(bytes: &[u8]) -> Option<Kind>
    ensures { result ≡ texts.kind_of bytes.now }
{
    match bytes {
        [b's'] => Some(Kind::Secrecy),
        [b'i'] => Some(Kind::Integrity),
        _ => None,
    }
}

fn is_digit(byte: u8) -> bool
    ensures { result ≡ texts.is_digit byte }
{
    byte.is_ascii_digit()
}

fn are_digits(bytes: &[u8]) -> bool
    ensures { result ≡ list_all texts.is_digit bytes.now }
{
    bytes.iter().all(|b| is_digit(*b))
}

/// The number that digits spell, where it is at most `most`.
fn value_within(digits: &[u8], most: u64) -> Option<u64>
    requires most { most < 2 ^ 40 }
    requires digits { list_all texts.is_digit digits.now ≡ true }
    ensures { result ≡ texts.only_if (nat_le (texts.value_of digits.now) most) (texts.value_of digits.now) }
{
    let mut value = 0u64;
    for digit in digits {
        value = value * 10 + u64::from(digit.saturating_sub(b'0'));
        if value > most {
            return None;
        }
    }
    Some(value)
}

fn starts_with_zero(bytes: &[u8]) -> bool
    ensures { result ≡ texts.starts_with_zero bytes.now }
{
    match bytes {
        [] => true,
        [first, ..] => *first == b'0',
    }
}

/// A number in decimal without leading zero, of at most ten digits.
#[tactic(auto, unfolding(crate::specs::Texts::decimal_of))]
fn decimal_of(bytes: &[u8], most: u64) -> Option<u64>
    requires { most < 2 ^ 40 }
    ensures value { result ≡ texts.decimal_of most bytes.now }
    ensures most { IfSome result (λ n. n ≤ most) }
{
    if bytes.is_empty() || bytes.len() > 10 || !are_digits(bytes) {
        return None;
    }
    if bytes.len() > 1 && starts_with_zero(bytes) {
        return None;
    }
    value_within(bytes, most)
}

/// The place of the first dot.
fn dot(bytes: &[u8]) -> Option<usize>
    ensures place { result ≡ texts.dot bytes.now }
    ensures within { IfSome result (λ place. place < length bytes.now) }
{
    bytes.iter().position(|b| *b == b'.')
}

/// What follows a place of the slice.
fn after(bytes: &[u8], place: usize) -> &[u8]
    requires { place < length bytes.now }
    ensures { result.now ≡ drop (place + 1) bytes.now }
{
    &bytes[place + 1..]
}

/// What stands before the first dot, and what behind it.
#[tactic(auto, unfolding(crate::specs::Texts::cut))]
fn cut(bytes: &[u8]) -> Option<(&[u8], &[u8])>
    ensures { option_map (λ p. (p.0.now, p.1.now)) result ≡ texts.cut bytes.now }
{
    match dot(bytes) {
        Some(place) => Some((&bytes[..place], after(bytes, place))),
        None => None,
    }
}

/// A category: `HOST.P.N.K`.
#[tactic(auto, unfolding(crate::specs::Texts::category_of))]
pub(crate) fn category_of(bytes: &[u8]) -> Option<Named<'_>>
    ensures { option_map named_seen result ≡ texts.category_of bytes.now }
{
    let (host, rest) = cut(bytes)?;
    if !is_name(host) {
        return None;
    }
    let (process, rest) = cut(rest)?;
    let process = decimal_of(process, PROCESS_MOST)?;
    let (number, kind) = cut(rest)?;
    let number = decimal_of(number, NUMBER_MOST)?;
    let kind = kind_of(kind)?;
    Some(Named {
        host,
        process: process as u32,
        number: number as u32,
        kind,
    })
}

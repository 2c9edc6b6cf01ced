//! How the file of a mark spells it.
#![tactic(auto)]

ghost use Rattle.std.specs.Prelude.{◌≡◌, ◌≢◌, ◌<◌, ◌^◌, ℕ, List, [], ◌∷◌, ◌++◌, IfSome, IsNone, MatchOption, OnOk, bytes_eq, decimal};
ghost use Rattle.std.specs.Io.KnownBytes.{Appends};
ghost use Rattle.ds_base.specs.Texts.{Spells};

use itoa::Buffer;
use std::io;
use std::io::Write;

/// The text in front of a line feed at the end, where one stands there.
fn before_line_feed(text: &[u8]) -> Option<&[u8]>
    ensures { MatchOption result ((front : List ℕ) → text.now ≢ front ++ 10 ∷ []) (λ front. text.now ≡ front.now ++ 10 ∷ []) }
{
    text.strip_suffix(b"\n")
}

/// The text is the number's digits.
fn is_printed(text: &[u8], number: u64) -> bool
    ensures { result ≡ bytes_eq text.now (decimal number) }
{
    text == Buffer::new().format(number).as_bytes()
}

/// The number whose digits the text is.
fn number_read(text: &[u8]) -> Option<u64>
    ensures some { IfSome result (λ number. text.now ≡ decimal number) }
    ensures none { IsNone result → (number : ℕ) → number < 2 ^ 64 → text.now ≢ decimal number }
{
    let digits = str::from_utf8(text).ok()?;
    let number = digits.parse::<u64>().ok()?;
    if is_printed(text, number) {
        Some(number)
    } else {
        None
    }
}

/// The mark that the content of a file spells, in decimal digits with no zero before them, and with or without a line
/// feed at the end; `None` where it spells none.
pub(crate) fn mark_read(content: &[u8]) -> Option<u64>
    ensures some { IfSome result (λ mark. Spells content.now mark) }
    ensures none { IsNone result → (mark : ℕ) → mark < 2 ^ 64 → ¬ Spells content.now mark }
{
    match number_read(content) {
        Some(mark) => Some(mark),
        None => number_read(before_line_feed(content)?),
    }
}

/// Writes the content of a mark's file, its decimal digits. After an error some of them may be written.
pub(crate) fn print_mark<W: Write>(file: &mut W, mark: u64) -> io::Result<()>
    ensures { OnOk result (Appends (W.contents file.old) (W.contents file.new) (decimal mark)) }
{
    file.write_all(Buffer::new().format(mark).as_bytes())
}

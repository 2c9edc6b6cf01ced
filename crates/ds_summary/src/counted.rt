//! What entries and notes are counted as.

ghost use Rattle.std.specs.Prelude.{◌≡◌};
ghost use Rattle.ds_summary.specs.Counts.{count, same};

/// What an entry or a note is counted as.
#[derive(Clone, Copy, Debug)]
pub enum Counted {
    /// A message that was queued on a lane.
    Queued,
    /// A frame that a lane wrote.
    Framed,
    /// A message that was put into a mailbox.
    Put,
    /// A message that was taken from a mailbox.
    Took,
    /// What the rule with that number refused.
    Refused(u8),
}

fn is_same(first: Counted, second: Counted) -> bool
    ensures { result ≡ same first second }
{
    match first {
        Counted::Queued => matches!(second, Counted::Queued),
        Counted::Framed => matches!(second, Counted::Framed),
        Counted::Put => matches!(second, Counted::Put),
        Counted::Took => matches!(second, Counted::Took),
        Counted::Refused(rule) => match second {
            Counted::Refused(other) => rule == other,
            Counted::Queued | Counted::Framed | Counted::Put | Counted::Took => false,
        },
    }
}

/// How often something was counted.
pub(crate) fn times(all: &[Counted], one: Counted) -> usize
    ensures { result ≡ count all.now one }
{
    all.iter().filter(|x| is_same(**x, one)).count()
}

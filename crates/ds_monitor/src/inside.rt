//! Tests of all members of a label.

ghost use Rattle.std.specs.Prelude.{◌≡◌, ◌%◌, ◌==◌, ◌||◌, not};
ghost use Rattle.std.specs.List.{list_all};
ghost use Rattle.ds_label.specs.Flow.{has};
ghost use Rattle.ds_label.specs.Numbers.{by_number};
ghost use Rattle.ds_model.specs.ProcessRules.{within, within_either};

use ds_label::LocalLabel;

/// Whether each member of the first is in the second.
pub fn is_within(small: &LocalLabel, large: &LocalLabel) -> bool
    ensures { result ≡ within by_number small.now large.now }
{
    small.as_slice().iter().all(|c| large.contains(*c))
}

/// Whether each member of the first is in the second or in the third.
pub fn is_within_either(small: &LocalLabel, one: &LocalLabel, other: &LocalLabel) -> bool
    ensures { result ≡ within_either by_number small.now one.now other.now }
{
    small
        .as_slice()
        .iter()
        .all(|c| one.contains(*c) || other.contains(*c))
}

/// Whether each secrecy category of the first is in the second.
pub fn secrecy_is_within(small: &LocalLabel, large: &LocalLabel) -> bool
    ensures { result ≡ list_all (λ c. not (c % 2 == 0) || has by_number c large.now) small.now }
{
    small
        .as_slice()
        .iter()
        .all(|c| c % 2 != 0 || large.contains(*c))
}

/// Whether each secrecy category of the label is in one of the three others.
pub fn secrecy_is_covered(
    label: &LocalLabel,
    first: &LocalLabel,
    second: &LocalLabel,
    third: &LocalLabel,
) -> bool
    ensures { result ≡ list_all (λ c. not (c % 2 == 0) || (has by_number c first.now || (has by_number c second.now || has by_number c third.now))) label.now }
{
    label.as_slice().iter().all(|c| c % 2 != 0
        || first.contains(*c)
        || second.contains(*c)
        || third.contains(*c))
}

//! Where a category would stand in a rising list.

ghost use Rattle.ds_label.specs.Flow.{IsRising};
ghost use Rattle.ds_label.specs.Names.{by_name};
ghost use Rattle.ds_label.specs.Numbers.{by_number};
ghost use Rattle.ds_label.specs.Search.{IsGap};

use crate::category::Category;

/// The place where a name would stand; none where it is there.
pub fn gap_for_name(members: &[Category], member: &Category) -> Option<usize>
    requires { IsRising by_name members.now }
    ensures { IsGap by_name member.now members.now result }
{
    members.binary_search(member).err()
}

/// The place where a number would stand; none where it is there.
pub fn gap_for_number(members: &[u64], member: u64) -> Option<usize>
    requires { IsRising by_number members.now }
    ensures { IsGap by_number member members.now result }
{
    members.binary_search(&member).err()
}

ghost use Rattle.std.specs.Prelude.{◌≡◌, MatchOption};
ghost use Rattle.definitions.specs.Hall.{InHall, IsHallList, member, number_of};
ghost use Rattle.definitions.specs.Order.{IsPlace};

use definitions::Member;

/// The member of a number, `None` where there is none.
fn member_at(members: &[Member], h: u32) -> Option<Member>
    ensures { MatchOption result (InHall members.now h → ⊥) (λ m. InHall members.now h × (m ≡ member members.now h)) }
{
    members.get(h.checked_sub(1)? as usize).copied()
}

/// How many members come before the pair (i, j) of degree n.
fn place_of(members: &[Member], n: u32, i: u32, j: u32) -> usize
    requires { IsHallList members.now }
    ensures { IsPlace n i j members.now result }
{
    members.partition_point(|m| m.precedes(n, i, j))
}

/// The number of a pair, `None` where it isn't in the list.
pub(crate) fn find_pair(members: &[Member], i: u32, j: u32) -> Option<u32>
    requires { IsHallList members.now }
    ensures { MatchOption result (number_of members.now i j ≡ 0) (λ h. InHall members.now h × (h ≡ number_of members.now i j)) }
{
    let n = member_at(members, i)?.degree() + member_at(members, j)?.degree();
    let at = place_of(members, n, i, j);
    if members.get(at)?.is_pair(i, j) {
        Some(at as u32 + 1)
    } else {
        None
    }
}

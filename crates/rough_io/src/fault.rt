ghost use Rattle.std.specs.Prelude.{◌≡◌};
ghost use Rattle.rough_io.specs.Counts.{next};

/// A read or a write that failed. Nothing was taken or added.
#[derive(Debug, Clone, Copy, PartialEq, Eq, Drop)]
pub struct Failed;

/// The count after one more, which stands still at `u64::MAX`.
pub(crate) fn next_count(count: u64) -> u64
    ensures { result ≡ next count }
{
    count.saturating_add(1)
}

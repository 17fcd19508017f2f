//! One counting scan, over whatever has an equality.

ghost use Rattle.std.specs.Prelude.{◌≡◌, ◌≤◌, length, Decides};
ghost use Rattle.group_by.specs.Counts.{Counts, Distinct};

/// How many of the items equal `x`.
pub fn count_equal<T: PartialEq>(items: &[T], x: &T) -> usize
    ensures count { Counts T.eq items.now x.now result }
    ensures bound { result ≤ length items.now }
{
    items.iter().filter(|item| *item == x).count()
}

/// Whether no position stands twice.
pub fn distinct_positions(positions: &[usize]) -> bool
    ensures { Decides result (Distinct positions.now) }
{
    // A loop: `all` over places with their positions says the same, and no more plainly.
    for (place, position) in positions.iter().enumerate() {
        if count_equal(&positions[..place], position) > 0 {
            return false;
        }
    }
    true
}

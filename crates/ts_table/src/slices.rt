//! Parts of slices.
ghost use Rattle.std.specs.Prelude.{◌≡◌, ◌≤◌, ◌+◌, drop, length, take};

/// The items from a place on, so many of them.
pub(crate) fn part_of<T>(items: &[T], from: u64, count: u64) -> &[T]
    requires { from + count ≤ length items.now }
    ensures { result.now ≡ take count (drop from items.now) }
{
    &items[from as usize..(from + count) as usize]
}

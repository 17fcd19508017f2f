//! Writing that cannot miss.

ghost use Rattle.std.specs.Prelude.{◌≡◌, slice_set};

/// Writes an item to its place; a place past the end is passed over.
pub fn put<T: Copy>(slice: &mut [T], place: usize, item: T)
    ensures { slice.new ≡ slice_set slice.old place item }
{
    // With `get_mut` the proof did not close.
    if place < slice.len() {
        slice[place] = item;
    }
}

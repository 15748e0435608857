// Arrays that are written at any place: a write past the end does nothing.
ghost use Rattle.std.specs.Prelude.{◌≡◌, slice_set};

/// Writes at the place, if there is one.
pub(crate) fn put<T: Copy>(slots: &mut [T], place: usize, value: T)
    ensures { slots.new ≡ slice_set slots.old place value }
{
    // By index, since std does not say what a slice ends as after `get_mut`: `returns-in-Some` is left open there.
    if place < slots.len() {
        slots[place] = value;
    }
}

//! Moves among the places of a borrowed map.
ghost use Rattle.std.specs.Prelude.{◌≡◌, ◌<◌, ◌≤◌, length, Some, None, slice_index_or};
ghost use Rattle.managed.specs.Places.{pushed, closed_up};
ghost use Rattle.managed.specs.SortedMap.{filled};

// Puts an item before the places, and moves the others up as far as the first empty place, behind `count` items.
pub(super) fn push_along<X: Drop>(places: &mut [Option<X>], count: usize, item: X)
    requires { (count ≡ length (filled places.old)) × (count ≤ length places.old) }
    ensures { places.new ≡ pushed (Some item) places.old }
{
    if places.is_empty() {
        return;
    }
    let end = if count < places.len() {
        count + 1
    } else {
        count
    };
    let moved = &mut places[..end];
    moved.rotate_right(1);
    moved[0] = Some(item);
}

// Takes the first place's item out, and moves the items behind it down.
pub(super) fn take_out<X>(places: &mut [Option<X>]) -> Option<X>
    requires { 0 < length places.old }
    ensures value { result ≡ slice_index_or places.old 0 None }
    ensures rest { places.new ≡ closed_up places.old }
{
    let item = places[0].take();
    for at in 0..places.len() - 1 {
        if places[at + 1].is_none() {
            return item;
        }
        places.swap(at, at + 1);
    }
    item
}

//! One of a list.
ghost use Rattle.std.specs.Borrow.{sem};
ghost use Rattle.std.specs.Prelude.{◌≡◌, ◌<◌, length, slice_index_or};
ghost use Rattle.std.specs.Slice.{slice_follows_item};

/// The item with this index, as `&mut items[index]` is, also if the items take no memory.
///
/// Condition: the index is one of the list.
pub fn item_at<T>(items: &mut [T], index: usize) -> &mut T
    requires { index < length items.old }
    ensures value { result.now ≡ slice_index_or items.old index result.now }
    ensures* writes_back { sem 𝓛 (slice_follows_item T.row items.entry index result) }
{
    &mut items[index]
}

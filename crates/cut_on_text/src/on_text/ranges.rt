//! Parts of a list, whatever the places are.
ghost use Rattle.std.specs.Prelude.{◌≡◌, slice_range};

/// What stands from one place to another: nothing where they are not in order, and no more than there is.
pub(super) fn between<T>(items: &[T], from: usize, end: usize) -> &[T]
    ensures { result.now ≡ slice_range items.now from end }
{
    let end = end.min(items.len());
    if from < end {
        return &items[from..end];
    }
    &items[..0]
}

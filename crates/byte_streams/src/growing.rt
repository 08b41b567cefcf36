//! Lists that grow by an item.
ghost use Rattle.std.specs.Prelude.{◌≡◌, ◌++◌, ◌∷◌, [], OnSome};

/// Puts an item after the others. `None`: out of memory.
#[inline(always)]
pub fn push<T: Copy>(item: T, to: &mut Vec<T>) -> Option<()>
    ensures { OnSome result (to.new.items ≡ to.old.items ++ item ∷ []) }
{
    let Ok(_) = to.push(item) else {
        return None;
    };
    Some(())
}

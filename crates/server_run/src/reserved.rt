//! Lists that were reserved for all that they will hold.
ghost use Rattle.std.specs.Prelude.{◌≡◌, ◌<◌, ◌≤◌, ◌∷◌, ◌++◌, [], length, vec_capacity};

/// Adds to a list that has room left. It takes no memory.
pub fn push_reserved<T: Drop>(list: &mut Vec<T>, item: T)
    requires room { length list.old.items < vec_capacity list.old }
    ensures items { list.new.items ≡ list.old.items ++ item ∷ [] }
    ensures room { vec_capacity list.old ≤ vec_capacity list.new }
{
    if list.push(item).is_err() {
        unreachable!();
    }
}

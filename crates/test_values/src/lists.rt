//! Lists whose length is known, and lists of replies.
ghost use Rattle.std.specs.Prelude.{◌≡◌, ◌≤◌, ◌∷◌, [], length, vec_len};

use auction_rows::{MOST_SHOWN, Ten};

/// The one item of a list.
pub fn only<T>(mut items: Vec<T>) -> T
    requires { vec_len items ≡ 1 }
    ensures { items.items ≡ result ∷ [] }
{
    let item = items.remove(0);
    items.destroy_empty();
    item
}

/// The two items of a list.
pub fn both<T>(mut items: Vec<T>) -> (T, T)
    requires { vec_len items ≡ 2 }
    ensures { items.items ≡ result.0 ∷ result.1 ∷ [] }
{
    let first = items.remove(0);
    let second = items.remove(0);
    items.destroy_empty();
    (first, second)
}

/// A list of these, as replies have them.
pub fn ten_of<T: Copy>(values: &[T]) -> Ten<T>
    requires { length values.now ≤ MOST_SHOWN }
    ensures { result ≡ values.now }
{
    let mut list = Ten::new();
    for value in values {
        list.push(*value);
    }
    list
}

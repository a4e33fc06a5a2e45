//! Elements that ascend by a key.

ghost use Rattle.std.specs.Prelude.{◌↔◌, ◌<◌, IsTrue};
ghost use Rattle.std.specs.List.{AllPairs};

use gw_fields::Keyed;

/// Whether the keys of elements ascend: each is above the one before it.
pub fn keys_ascend<T: Keyed>(elements: &[T]) -> bool
    ensures { IsTrue result ↔ AllPairs (λ a b. T.key_of a < T.key_of b) elements.now }
{
    for i in 1..elements.len() {
        if elements[i].key() <= elements[i - 1].key() {
            return false;
        }
    }
    true
}

//! What the standard library's queue lacks.

ghost use Rattle.std.specs.Prelude.{◌≡◌, ◌≤◌, ◌<◌, ◌+◌, insert};
ghost use Rattle.std.specs.VecDeque.{deque_len, deque_capacity};

use std::collections::VecDeque;

/// Inserts where there is room, so that no memory is taken and nothing can be refused. At either end nobody moves.
pub fn insert_reserved<T: Drop>(queue: &mut VecDeque<T>, place: usize, newcomer: T)
    requires within { place ≤ deque_len queue.old }
    requires room { deque_len queue.old < deque_capacity queue.old }
    ensures items { queue.new.items ≡ insert queue.old.items place newcomer }
    ensures len { deque_len queue.new ≡ deque_len queue.old + 1 }
    ensures capacity { deque_capacity queue.old ≤ deque_capacity queue.new }
{
    if place == queue.len() {
        queue.push_back_reserved(newcomer);
        return;
    }
    if place == 0 {
        queue.push_front_reserved(newcomer);
        return;
    }
    let _ = queue.insert(place, newcomer);
}

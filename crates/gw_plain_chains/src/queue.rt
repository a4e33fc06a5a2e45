//! A queue that is kept by priority.

ghost use Rattle.std.specs.Prelude.{◌≡◌, ◌≤◌, ◌<◌, ◌+◌};
ghost use Rattle.std.specs.VecDeque.{deque_len, deque_capacity};
ghost use Rattle.gw_plain_chains.specs.Orders.{IsByPriority, IsPlaceBehind};
ghost use Rattle.gw_members.specs.Members.{behind_peers};

use gw_chains::insert_reserved;
use gw_members::{Member, Tx};
use std::collections::VecDeque;

/// Puts it behind all of equal or higher priority, where there is room.
pub fn join_behind(queue: &mut VecDeque<Member>, tx: Tx, priority: i32)
    requires order { IsByPriority (λ m. m.priority) queue.old.items }
    requires room { deque_len queue.old < deque_capacity queue.old }
    ensures items { queue.new.items ≡ behind_peers tx priority queue.old.items }
    ensures order { IsByPriority (λ m. m.priority) queue.new.items }
    ensures len { deque_len queue.new ≡ deque_len queue.old + 1 }
    ensures capacity { deque_capacity queue.old ≤ deque_capacity queue.new }
{
    let place = place_behind(queue, priority);
    insert_reserved(queue, place, Member { tx, priority });
}

/// The place behind all of equal or higher priority; it looks at the last first.
fn place_behind(queue: &VecDeque<Member>, priority: i32) -> usize
    requires { IsByPriority (λ m. m.priority) queue.now.items }
    ensures within { result ≤ deque_len queue.now }
    ensures place { IsPlaceBehind priority queue.now.items result }
{
    if let Some(last) = queue.back() {
        if priority <= last.priority {
            return queue.len();
        }
    }
    queue.partition_point(|m| priority <= m.priority)
}

//! The journal as it is stored, and the places that it has.

ghost use Rattle.std.specs.Prelude.{◌≡◌, ◌+◌, ◌≤◌, nat_lt, length, vec_len, vec_capacity, IfOk, IfErr};
ghost use Rattle.gw_service.specs.Calls.{most_events};

use gw_service::JobFault;

/// The most events of a journal.
const MOST_EVENTS: usize = 1 << 20;

/// An event as the journal stores it, in 16 bytes: the user and the job of a submit stand in its row.
#[derive(Clone, Copy, PartialEq, Eq)]
pub enum StoredEvent {
    /// A job got the next slot.
    Submit,
    /// The row in this slot went out.
    Take(u32),
    /// The row in this slot came back, with so many steps in all.
    Return(u32, u64),
    /// The row in this slot was cancelled.
    Cancel(u32),
}

/// Whether the journal has no place for so many more events, since each row that is out keeps one for its return.
pub fn is_full(journal: &[StoredEvent], out: u32, need: usize) -> bool
    requires { need ≤ 2 }
    ensures { result ≡ nat_lt most_events (length journal.now + out + need) }
{
    journal.len() + out as usize + need > MOST_EVENTS
}

/// Makes room for so many more items, and answers `Memory` where there is none. The items stay as they are.
pub fn reserve_more<T>(items: &mut Vec<T>, more: usize) -> Result<(), JobFault>
    ensures room { IfOk result (λ _. vec_len items.new + more ≤ vec_capacity items.new) }
    ensures kept { vec_capacity items.old ≤ vec_capacity items.new }
    ensures same { items.new.items ≡ items.old.items }
    ensures len { vec_len items.new ≡ vec_len items.old }
    ensures err { IfErr result (λ fault. fault ≡ JobFault.Memory) }
{
    match items.reserve(more) {
        Ok(()) => Ok(()),
        Err(_) => Err(JobFault::Memory),
    }
}

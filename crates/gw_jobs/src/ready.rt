//! The ready list: the slots of the rows that are ready, in the order in which they are taken.

ghost use Rattle.std.specs.Prelude.{◌≡◌, ◌+◌, ◌≤◌, ◌<◌, ◌++◌, vec_len, vec_capacity};
ghost use Rattle.std.specs.List.{slice_get};
ghost use Rattle.gw_service.specs.Journal.{slot_if_ready, ready_without};
ghost use Rattle.gw_service.specs.Calls.{take_from};

use crate::row::Row;
use crate::rows::is_ready_row;
use gw_service::JobFault;

/// The slot that is taken next: none where nothing is ready, else `JournalFull` where the journal is full.
pub fn next_slot(ready: &[u32], full: bool) -> Result<Option<u32>, JobFault>
    ensures { result ≡ take_from ready.now full }
{
    match ready {
        [] => Ok(None),
        [slot, ..] => {
            if full {
                return Err(JobFault::JournalFull);
            }
            Ok(Some(*slot))
        }
    }
}

/// Puts a slot at the end of the ready list, where its row is ready.
pub fn list_if_ready(ready: &mut Vec<u32>, rows: &[Row], slot: u32)
    requires { vec_len ready.old < vec_capacity ready.old }
    ensures items { ready.new.items ≡ ready.old.items ++ slot_if_ready slot (slice_get rows.now slot) }
    ensures len { vec_len ready.new ≤ vec_len ready.old + 1 }
    ensures capacity { vec_capacity ready.new ≡ vec_capacity ready.old }
{
    if is_ready_row(rows, slot) {
        ready.push_reserved(slot);
    }
}

/// Takes a slot off the ready list.
pub fn remove_slot(ready: &mut Vec<u32>, slot: u32)
    ensures items { ready.new.items ≡ ready_without slot ready.old.items }
    ensures len { vec_len ready.new ≤ vec_len ready.old }
    ensures capacity { vec_capacity ready.new ≡ vec_capacity ready.old }
{
    ready.retain(|listed| *listed != slot);
}

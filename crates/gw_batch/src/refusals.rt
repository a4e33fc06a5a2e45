//! Refusals of a batch.

ghost use Rattle.std.specs.Prelude.{◌≡◌};
ghost use Rattle.std.specs.Option.{option_map};
ghost use Rattle.gw_answers.specs.Service.{nowhere};
ghost use Rattle.gw_batch.specs.Codes as refusals;

use gw_answers::{Refusal, codes, without_place};
use gw_object::codes::MEMORY;
use gw_pool::{PoolFault, range_fault};

/// Want of memory.
pub fn want_of_memory() -> Refusal
    ensures { result.0 ≡ nowhere 8 }
{
    without_place(MEMORY)
}

/// A refusal of workers.
fn refusal_of_pool(fault: PoolFault) -> Refusal
    ensures { result.0 ≡ refusals.pool_refusal fault }
{
    match fault {
        PoolFault::Workers => without_place(codes::WORKERS),
        PoolFault::Slice => without_place(codes::SLICE),
        PoolFault::Spawn => without_place(codes::SPAWN),
        PoolFault::Memory => without_place(MEMORY),
    }
}

/// The refusal of a batch whose workers or slices are as many as there may not be: 55 Workers outside 1 to 16, else 56 Slice
/// outside 1 to 2^20.
pub fn refusal_of_words(workers: u32, slice: u32) -> Option<Refusal>
    ensures { option_map (λ r. r.0) result ≡ refusals.words_fault workers slice }
{
    match range_fault(workers, slice) {
        Some(fault) => Some(refusal_of_pool(fault)),
        None => None,
    }
}

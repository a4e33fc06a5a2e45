//! Refusals of a service.

ghost use Rattle.std.specs.Prelude.{◌≡◌};
ghost use Rattle.gw_answers.specs.Service.{nowhere, job_refusal};

use crate::codes;
use crate::refusal::Refusal;
use gw_object::codes::MEMORY;
use gw_object::{Fault, Place};
use gw_service::JobFault;

/// A refusal without a place.
pub fn without_place(code: u16) -> Refusal
    ensures { result.0 ≡ nowhere code }
{
    Refusal(Fault {
        code,
        place: Place::Nowhere,
    })
}

/// A refusal by the service, in which want of memory has the code that it has everywhere.
pub fn refusal_of_job(fault: JobFault) -> Refusal
    ensures { result.0 ≡ job_refusal fault }
{
    match fault {
        JobFault::UserFull => without_place(codes::USER_FULL),
        JobFault::ServiceFull => without_place(codes::SERVICE_FULL),
        JobFault::JournalFull => without_place(codes::JOURNAL_FULL),
        JobFault::Memory => without_place(MEMORY),
        JobFault::NotYours => without_place(codes::NOT_YOURS),
        JobFault::NotEnded => without_place(codes::NOT_ENDED),
        JobFault::Cancelled => without_place(codes::CANCELLED),
        JobFault::Stranger => without_place(codes::STRANGER),
        JobFault::AlreadyEnded => without_place(codes::ALREADY_ENDED),
    }
}

//! The page of planners: requests of HTTP and their answers, with limits counted beforehand.
//!
//! It promises that what was written to a peer answers the requests that were read from it, in
//! order, and that a run which is answered was counted first and found within the limits. It knows
//! of no socket: any reader and any writer will do (docs/page.md).
#![tactic(auto)]

mod answering;
mod counting;
mod html;
mod inquiry;
mod limits;
mod quiet;
mod reply;
mod routing;
mod serving;
mod texts;
mod words;

pub use limits::{MOST_NUMBERS, MOST_STEPS, MOST_TRACED};
pub use serving::serve_page;

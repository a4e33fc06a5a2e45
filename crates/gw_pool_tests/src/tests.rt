//! Rows worked out by hand.

mod boards;
mod calls;
mod cancels;
mod flushes;
mod jobs;
mod journals;
mod meeting;
mod ranges;
mod services;
mod shares;
mod slices;
mod specs;
mod standings;
mod strangers;
mod tables;
mod users;

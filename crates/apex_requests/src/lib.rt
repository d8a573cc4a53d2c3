//! The types of requests and their replies, tickets, and the events of a trail.
#![tactic(auto)]

mod reply;
mod request;

pub use reply::{Counts, Event, EventKind, Outcome, Reply};
pub use request::{Context, Op, Request, SaveError, SaveResult, SaveRow, Ticket, Work};

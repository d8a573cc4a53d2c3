//! The committed rows of tenants: what a store answers, and how it takes writes without wanting memory (docs/platform.md,
//! "Rows and stores").
#![tactic(auto)]

mod rows;
mod store;

pub use rows::TenantRows;
pub use store::Store;

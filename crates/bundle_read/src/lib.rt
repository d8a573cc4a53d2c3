//! Bundles: from the bytes of a run's input to what they say, or the first fault in them.
//! Laws about bundles that were read.
#![tactic(auto)]

mod bundle;
mod entries;
mod fault;
mod laws;
mod lists;
mod read;
mod reading;
mod requests;
mod rows;
mod schema;
mod taken;
mod values;

pub use entries::{
    Bundle, CellEntry, CellValue, RequestEntry, RowEntry, SaveEntry, SeedEntry, SessionEntry,
    TenantPlan, UnitPlan, WorkEntry,
};
pub use fault::BundleFault;
pub use laws::laws_of_bundles;
pub use reading::read_bundle;

// What a bundle says, before it is looked at as a whole. Names are as they were written.

use apex_list::Items;
use apex_num::Text;
use apex_requests::Op;
use schema_plans::SchemaPlan;

/// A bundle: the tenants of a run.
#[derive(Drop)]
pub struct Bundle {
    /// The version of the format, 1.
    pub version: u32,
    pub tenants: Items<TenantPlan>,
}

/// A tenant.
#[derive(Drop)]
pub struct TenantPlan {
    /// 1 to 64 small letters, digits and `_`; no two tenants of a bundle have one name.
    pub name: Text,
    pub schema: SchemaPlan,
    pub units: Items<UnitPlan>,
    pub seed: Items<SeedEntry>,
    pub sessions: Items<SessionEntry>,
}

/// A class, an interface or a trigger.
#[derive(Drop)]
pub struct UnitPlan {
    /// What its faults are told of; any text.
    pub name: Text,
    pub text: Text,
}

/// Rows of an object that are there before the first request.
#[derive(Drop)]
pub struct SeedEntry {
    /// The name of the object.
    pub object: Text,
    pub rows: Items<RowEntry>,
}

/// A row, or a record to save: its cells in the order of their keys' bytes.
#[derive(Drop)]
pub struct RowEntry {
    pub cells: Items<CellEntry>,
}

/// A cell: the name of its field, and what was written for it.
#[derive(Drop)]
pub struct CellEntry {
    pub name: Text,
    pub value: CellValue,
}

/// A JSON value that is written for a cell. Which cell it is, if it is one, its field tells.
#[derive(Drop)]
pub enum CellValue {
    Null,
    Truth(bool),
    /// A number without dot and exponent, from -2^63 to 2^64 - 1, that isn't `-0`.
    Whole(i128),
    /// Any other number.
    Float,
    Text(Text),
    /// A list or an object.
    Nested,
}

/// A session: requests of a user that run one after the other.
#[derive(Drop)]
pub struct SessionEntry {
    /// The name of the user.
    pub user: Text,
    pub requests: Items<RequestEntry>,
}

/// A request of a session.
#[derive(Drop)]
pub struct RequestEntry {
    pub work: WorkEntry,
    /// The moment of the request: seconds from 1970-01-01T00:00:00Z.
    pub now: i64,
}

/// What a request does.
#[derive(Drop)]
pub enum WorkEntry {
    /// It runs this anonymous block.
    Apex(Text),
    Save(SaveEntry),
}

/// Records to save, as one statement.
#[derive(Drop)]
pub struct SaveEntry {
    pub op: Op,
    /// The name of the object.
    pub object: Text,
    pub all_or_none: bool,
    pub rows: Items<RowEntry>,
}

// What a save works on.

use limit_meter::Meter;
use txn_overlay::Journal;

/// What a save changes: the overlay, how many Ids the request made, and what it used up.
#[derive(Drop)]
pub struct TxnState {
    pub overlay: Journal,
    pub minted: usize,
    pub meter: Meter,
}

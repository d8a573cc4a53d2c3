// Overlays to go back to.

ghost use Rattle.std.specs.Prelude.{◌≡◌, OnOk};
ghost use Rattle.save_statements.specs.Moves as spec;

use apex_num::NoMemory;
use save_meaning::TxnState;

/// A mark is set, where one is wanted.
pub fn mark(wanted: bool, txn: &mut TxnState) -> Result<(), NoMemory>
    ensures { OnOk result (txn.new ≡ spec.marked wanted txn.old) }
{
    if wanted {
        txn.overlay.save()?;
    }
    Ok(())
}

/// It goes, where there is one, and what was changed behind it stays.
pub fn unmark(wanted: bool, txn: &mut TxnState)
    ensures { txn.new ≡ spec.unmarked wanted txn.old }
{
    if wanted {
        txn.overlay.keep();
    }
}

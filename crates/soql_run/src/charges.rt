// What a query is charged.

ghost use Rattle.std.specs.Prelude.{◌≡◌, ℕ};
ghost use Rattle.apex_requests.specs.declared.request.Ticket.{Ticket};
ghost use Rattle.query_meaning.specs.Queries.{rows_in};
ghost use Rattle.query_moves.specs.Moves as spec;
ghost use Rattle.query_questions.specs.Capped.{capped};
ghost use Rattle.save_stages.specs.Does.{site_of};
ghost use Rattle.soql_run.specs.Charging.{Charges};

use apex_num::LimitKind;
use apex_rows::Found;
use apex_schema::Schema;
use limit_meter::Limit;
use query_questions::{rows_of, units_of};
use save_meaning::TxnState;

/// A charge; the greatest number stands for more, and is above each limit. Where the counter would pass its limit, nothing changes.
pub fn charge(kind: LimitKind, n: u64, txn: &mut TxnState) -> Result<(), Limit>
    ensures exact { Charges (spec.charged kind n txn.old) result txn.new }
    ensures capped { (all : ℕ) → n ≡ capped all → Charges (spec.charged kind all txn.old) result txn.new }
{
    txn.meter.charge(kind, n)
}

/// The rows that were found are charged, with those under them, and then their units; COUNT() costs a row and no units.
pub fn charge_rows(
    schema: &Schema,
    counted: bool,
    found: &[Found],
    txn: &mut TxnState,
) -> Result<(), Limit>
    ensures { (ticket : Ticket) → Charges (spec.charged_rows (site_of schema.now ticket) counted (rows_in found.now) txn.old) result txn.new }
{
    if counted {
        return charge(LimitKind::Rows, 1, txn);
    }
    charge(LimitKind::Rows, rows_of(found), txn)?;
    charge(LimitKind::Alloc, units_of(schema, found), txn)
}

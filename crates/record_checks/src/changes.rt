// Which cells of a record are new.

ghost use Rattle.std.specs.Prelude.{◌≡◌};
ghost use Rattle.std.specs.Option.{option_copied};
ghost use Rattle.save_statements.specs.Checks as checks;
ghost use Rattle.save_statements.specs.Records as spec;

use apex_rows::Row;
use apex_schema::Rule;
use formula_rules::rule_holds;
use save_statements::Pending;

/// Whether a row has another cell in a field than an earlier one had. Cells are the same where ISCHANGED of a rule says so; where
/// there is no earlier row, each cell is new.
pub fn is_new(field: usize, row: &Row, was: Option<&Row>) -> bool
    ensures { result ≡ spec.is_new field row.now (option_copied was.entry) }
{
    match was {
        None => true,
        Some(old) => rule_holds(&Rule::IsChanged(field), row, Some(old)),
    }
}

/// Whether an update changes a field of its row; where there is no earlier row, nothing is changed.
pub(crate) fn changes(field: usize, row: &Row, was: Option<&Row>) -> bool
    ensures { result ≡ spec.changes field row.now (option_copied was.entry) }
{
    match was {
        None => false,
        Some(old) => is_new(field, row, Some(old)),
    }
}

/// Whether the row that a field of a record names is looked up: where it is another than the row named before, and than the one
/// that was looked up last.
pub fn is_looked_up(field: usize, pending: &Pending) -> bool
    ensures { result ≡ checks.is_looked_up field pending.now }
{
    is_new(field, &pending.row, pending.old.as_ref())
        && is_new(field, &pending.row, pending.seen.as_ref())
}

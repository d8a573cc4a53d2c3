// Laws of rows with their roll-ups. The function does nothing: what it promises is proved.

ghost use Rattle.rolled_rows.specs.Laws as laws;

/// A roll-up is in range exactly where it is null or a Decimal, and a row of a schema stays one with its roll-ups.
pub fn laws_of_rolled_rows()
    ensures range { laws.RangeIsDecimals }
    ensures rows { laws.RowsStayRows }
{}

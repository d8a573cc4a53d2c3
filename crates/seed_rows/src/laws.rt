// Laws of seeds. The function does nothing: what it promises is proved.

ghost use Rattle.seed_rows.specs.Laws as laws;

use rolled_rows::laws_of_rolled_rows;

/// The rows of a seed are a store's: rows of the schema, no two of which have one Id.
pub fn laws_of_seeds()
    ensures rows { laws.RowsAreOfSchema }
    ensures ids { laws.IdsDiffer }
{
    laws_of_rolled_rows();
}

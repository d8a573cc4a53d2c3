// Laws about what the records of queries know.

ghost use Rattle.query_records.specs.Laws.{IdsComeFirst, ParentsStay};
ghost use Rattle.query_records.specs.Shapes.{query_with, with_own};

/// What holds of every query, and of every subquery, that finds the Ids over its rows too: it asks for the same parents as before,
/// in the same order, and what it finds over a row are the Ids, one for each way, and then what it found before.
pub fn laws_of_shapes()
    ensures parents { ParentsStay query_with }
    ensures parents_under { ParentsStay with_own }
    ensures values { IdsComeFirst query_with }
    ensures values_under { IdsComeFirst with_own }
{}

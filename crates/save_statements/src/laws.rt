// Laws about statements that save.

ghost use Rattle.save_statements.specs.Laws.{FailedSavesChangeNothing};
ghost use Rattle.save_statements.specs.MoveLaws.{MovesSave};

/// What holds of every statement that saves, in requests of any state: one of all or none that throws leaves the overlay as it found it.
pub fn laws_of_saves<S>()
    ensures failed { FailedSavesChangeNothing S }
{}

/// What holds of the moves of every statement that saves: on every tape they come to what it means.
pub fn laws_of_moves()
    ensures save { MovesSave }
{}

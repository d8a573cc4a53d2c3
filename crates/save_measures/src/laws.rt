// Laws about the moves of statements that save.

ghost use Rattle.save_measures.specs.Laws.{MovesEnd, MovesPay};

/// What holds of every move of a statement: fewer may come behind one that goes on, and behind a firing that came back; an answer
/// changes nothing of their number. And where each row that the request made was paid for, so is each behind the move.
pub fn laws_of_measures()
    ensures end { MovesEnd }
    ensures pay { MovesPay }
{}

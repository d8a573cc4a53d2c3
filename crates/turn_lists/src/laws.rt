// Laws about lists of turns.

ghost use Rattle.turn_lists.specs.Laws.{ListsAreOnly};

/// What holds of all words: those that list turns list no others.
pub fn laws_of_lists()
    ensures only { ListsAreOnly }
{}

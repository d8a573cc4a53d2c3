// Laws about counts.

ghost use Rattle.save_meaning.specs.Laws.{CountsAreOfTheWholeStore};

/// What holds of every count over what a store answers.
pub fn laws_of_counts()
    ensures whole { CountsAreOfTheWholeStore }
{}

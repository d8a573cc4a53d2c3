// Laws of the tables.

ghost use Rattle.builtin_signatures.specs.Laws.{CountsAgree};

/// A method that is found by its type, its name and a number of arguments takes so many.
pub fn laws_of_counts()
    ensures { CountsAgree }
{}

// Laws about trails.

ghost use Rattle.legal_trails.specs.Laws.{OneSessionIsNeverRefused};

/// What holds of every trail of a tenant with one session: no request of it is closed because a row is held.
pub fn laws_of_one_session()
    ensures never_refused { OneSessionIsNeverRefused }
{}

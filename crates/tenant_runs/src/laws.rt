// Laws about parts of tenants.

ghost use Rattle.tenant_runs.specs.Laws.{PartsHaveRoom};

/// What holds of the part of every tenant of a bundle that was read: each object of its schema has a prefix of three letters or
/// digits; and sessions, their requests and users have numbers of their own in Ids.
pub fn laws_of_parts()
    ensures parts { PartsHaveRoom }
{}

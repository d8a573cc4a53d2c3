// Laws about sessions and their users.

ghost use Rattle.tenant_sessions.specs.Laws.{UsersOrFault, NotBoth, UsersAreOnly, FaultIsOnly};

/// What holds of any users and sessions: either each session has its user, in one way, or one session is the first that has none.
pub fn laws_of_sessions()
    ensures one_of { UsersOrFault }
    ensures not_both { NotBoth }
    ensures users { UsersAreOnly }
    ensures fault { FaultIsOnly }
{}

// Laws about turns.

ghost use Rattle.legal_trails.specs.TurnLaws.{ServedIsTurned, TurnsAreLegal};

/// What holds of trails that are made turn by turn: they are legal, and where the turns of a whole bundle are served, each
/// tenant's trail is the one that the turns of its own sessions make.
pub fn laws_of_turns()
    ensures legal { TurnsAreLegal }
    ensures turned { ServedIsTurned }
{}

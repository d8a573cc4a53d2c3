// Laws about blocks of whole programs.

ghost use Rattle.language_laws.specs.Limits.{ChargesAreExact, CountersStayWithin, EndsComeBeforeTheRest, FailedBlocksWriteNothing, HaltsAreAtCharges, LinesStay, RepliesStayWithin, TriesSeeNoEnd};
ghost use Rattle.language_laws.specs.Rounds.{RoundsSuffice};

/// What holds of every block: the rounds that its meaning allows it are never used up, so each block has a meaning.
pub fn laws_of_rounds()
    ensures suffice { RoundsSuffice }
{}

/// What holds of the charges of every block: no counter passes its limit, a charge is made exactly where it fits and ends the
/// request where it doesn't, nothing follows, and what was there before stays.
pub fn laws_of_limits()
    ensures within { CountersStayWithin }
    ensures replies { RepliesStayWithin }
    ensures exact { ChargesAreExact }
    ensures halts { HaltsAreAtCharges }
    ensures rest { EndsComeBeforeTheRest }
    ensures tries { TriesSeeNoEnd }
    ensures lines { LinesStay }
    ensures failed { FailedBlocksWriteNothing }
{}

// Laws of the definitions that the methods of this crate meet. The functions do nothing: what they promise is proved.

ghost use Rattle.text_methods.specs.Laws as laws;

/// Laws of the parts of a text.
pub fn laws_of_parts()
    ensures length { laws.LengthAdds }
    ensures substring { laws.PartFits }
    ensures substring_none { laws.PartExactly }
    ensures whole { laws.WholePart }
    ensures left_and_right { laws.LeftAndRight }
    ensures left { laws.LeftIsFront }
    ensures right { laws.RightIsBack }
    ensures mid { laws.MidIsPart }
    ensures mid_left { laws.MidIsLeft }
{}

/// Laws of where a text occurs in another.
pub fn laws_of_places()
    ensures contains { laws.ContainsSplits }
    ensures starts { laws.StartSplits }
    ensures ends { laws.EndSplits }
    ensures first { laws.FirstSplits }
    ensures last { laws.LastSplits }
    ensures first_from { laws.FirstFromCounts }
    ensures past_the_end { laws.FirstFromEnds }
    ensures before_and_after { laws.BeforeAndAfter }
    ensures without_start { laws.StartGoes }
    ensures without_end { laws.EndGoes }
    ensures start_stays { laws.StartStays }
    ensures end_stays { laws.EndStays }
{}

/// Laws of all occurrences of a text in another.
pub fn laws_of_occurrences()
    ensures replaced { laws.ReplacedFromFirst }
    ensures counted_more { laws.CountedFromFirst }
    ensures empty { laws.EmptyStays }
    ensures by_itself { laws.ReplacedByItself }
    ensures nowhere { laws.ReplacedNowhere }
    ensures counted { laws.CountedNowhere }
    ensures removed { laws.RemovedSize }
{}

/// Laws of letters.
pub fn laws_of_letters()
    ensures case { laws.CaseFolds }
    ensures first { laws.FirstCaseAlone }
    ensures large { laws.FirstIsLarge }
    ensures small { laws.FirstIsSmall }
    ensures equals { laws.EqualsIsSame }
    ensures equals_bar_case { laws.EqualsBarCase }
    ensures compares { laws.ComparesInOrder }
    ensures reverse { laws.ReversedTwice }
{}

/// Laws of blanks, and of texts that are made longer.
pub fn laws_of_blanks()
    ensures trim { laws.TrimsBothEnds }
    ensures pad { laws.PadsTo }
    ensures pad_side { laws.PadsItsSide }
    ensures pad_none { laws.PadsNothing }
    ensures repeat { laws.RepeatedSize }
    ensures numeric { laws.NumericIsDigits }
    ensures blank { laws.BlankIsWhite }
{}

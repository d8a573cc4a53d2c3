// Laws of the definitions that the functions of this crate meet. The functions do nothing: what they promise is proved.

ghost use Rattle.civil_dates.specs.Laws as laws;

/// Laws of days.
pub fn laws_of_days()
    ensures date { laws.DateOfDay }
    ensures years { laws.DaysOfYears }
    ensures between { laws.DaysBetween }
    ensures months { laws.MonthsLater }
    ensures leap { laws.LeapFebruary }
{}

/// Laws of moments.
pub fn laws_of_moments()
    ensures day { laws.InItsDay }
    ensures clock { laws.ClockOfSecond }
    ensures years { laws.MomentsOfYears }
    ensures parts { laws.MomentOfParts }
    ensures hours { laws.HoursOfDays }
{}

/// Laws of texts.
pub fn laws_of_texts()
    ensures date { laws.DateIsRead }
    ensures date_form { laws.DateHasForm }
    ensures clock { laws.ClockIsRead }
    ensures moment { laws.MomentIsRead }
    ensures moment_form { laws.MomentHasForm }
    ensures stamp { laws.StampIsMoment }
{}

// Laws about inquiries.

ghost use Rattle.store_inquiries.specs.Laws.{EachQuestionTakesAnAnswer, InquiriesGoOn, StoresAnswer, OneBehindAnother};

/// What holds of every inquiry: on a tape it takes the next answer for each question and changes nothing else, it can be begun
/// again on the answers that it had, and on those of a store it finds what it finds there. S is the state of a request, E what
/// leaves it early, A and B what is found.
pub fn laws_of_inquiries<S, E, A, B>()
    ensures takes { EachQuestionTakesAnAnswer S E A B }
    ensures goes_on { InquiriesGoOn S E A B }
    ensures stores { StoresAnswer S E A B }
    ensures behind { OneBehindAnother S E A B }
{}

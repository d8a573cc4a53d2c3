// Laws about queries.

ghost use Rattle.query_meaning.specs.Laws.{FindsWhatItMeans, AnswersWhatItMeans, ChangesNothing, TakesOneByOne};

/// What holds of every query of a request, whose state S is: where a store answers its questions, it finds what it means on the
/// whole store as the transaction sees it, charges for that and answers it; it changes nothing but charges and the tape; and it
/// takes the answers of its tape one by one, so that it can be begun again with one more.
pub fn laws_of_queries<S>()
    ensures finds { FindsWhatItMeans }
    ensures answers { AnswersWhatItMeans S }
    ensures changes { ChangesNothing S }
    ensures takes { TakesOneByOne S }
{}

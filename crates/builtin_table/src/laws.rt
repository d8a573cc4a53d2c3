// Laws of the definitions that the methods meet. The functions do nothing: what they promise is proved.

ghost use Rattle.builtin_table.specs.Laws as laws;

/// Laws of numbers.
pub fn laws_of_numbers()
    ensures sign { laws.SignAndSize }
    ensures size { laws.SizeOfType }
    ensures greatest { laws.GreatestAndLeast }
    ensures quotient { laws.RestOfQuotient }
    ensures rest { laws.RestHasSign }
{}

/// Laws of texts.
pub fn laws_of_texts()
    ensures compared { laws.ComparedBack }
    ensures empty { laws.EmptyIsBlank }
    ensures id { laws.IdOfText }
{}

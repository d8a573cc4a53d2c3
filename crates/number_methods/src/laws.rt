// Laws of the definitions that the methods of this crate meet. The functions do nothing: what they promise is proved.

ghost use Rattle.number_methods.specs.Laws as laws;

/// Laws of numbers from texts.
pub fn laws_of_texts()
    ensures whole { laws.WholeOfText }
    ensures letter { laws.LetterGoes }
    ensures decimal { laws.DecimalOfText }
{}

/// Laws of numbers that are made whole.
pub fn laws_of_numbers()
    ensures towards_zero { laws.WholeTowardsZero }
    ensures bits { laws.WrapsBits }
{}

// Laws of the definitions that operators meet. The functions do nothing: what they promise is proved.

ghost use Rattle.value_operators.specs.Laws as laws;

/// Laws of null.
pub fn laws_of_null()
    ensures throws { laws.NullThrows }
    ensures order { laws.NullHasNoOrder }
    ensures null { laws.NullIsNull }
    ensures stays { laws.NullStaysNull }
{}

/// Laws of comparisons.
pub fn laws_of_comparisons()
    ensures itself { laws.EqualToItself }
    ensures ways { laws.EqualBothWays }
    ensures order { laws.OrderOfNumbers }
{}

/// Laws of numbers.
pub fn laws_of_numbers()
    ensures fits { laws.ExactWhereItFits }
    ensures rounds { laws.RoundsHalfEven }
    ensures range { laws.DecimalInRange }
{}

// A law of the definition of texts. The function does nothing: what it promises is proved.

ghost use Rattle.value_texts.specs.Laws as laws;

/// A law of texts.
pub fn laws_of_depth()
    ensures { laws.DeepIsLong }
{}

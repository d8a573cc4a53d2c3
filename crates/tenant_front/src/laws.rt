// Laws of parts. The function does nothing: what it promises is proved.

ghost use Rattle.tenant_front.specs.Laws as laws;

use number_methods::laws_of_texts;
use tenant_sessions::laws_of_sessions;

/// A tenant of a bundle has at most one part and at most one first fault, and not both. The fault is that of the first reader
/// that has one, in this order: schema, rules, users of sessions, texts of units, their code, seed. None of them both finds
/// what it reads and has a fault, and where there is a part each finds it.
pub fn laws_of_fronts()
    ensures part { laws.PartIsOnly }
    ensures fault { laws.FaultIsOnly }
    ensures not_both { laws.NotBoth }
    ensures first { laws.FaultIsOfFirst }
    ensures apart { laws.FindsOrRefuses }
    ensures all { laws.AllFind }
{
    laws_of_texts();
    laws_of_sessions();
}

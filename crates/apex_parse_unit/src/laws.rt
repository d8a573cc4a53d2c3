// Laws of the definitions that the functions of this crate meet. The function does nothing: what it promises is proved.

ghost use Rattle.apex_parse_unit.specs.Laws as laws;

/// With what members begin.
pub fn laws_of_members()
    ensures members { laws.MemberBegins }
    ensures signatures { laws.SignatureBegins }
{}

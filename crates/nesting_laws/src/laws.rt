// Laws of the definitions that the parsers meet. The functions do nothing: what they promise is proved.

ghost use Rattle.nesting_laws.specs.Laws as laws;

/// In what is read where so many forms may be opened no more are open at once.
pub fn laws_of_trees()
    ensures types { laws.TypeDepth }
    ensures queries { laws.QueryDepth }
    ensures exprs { laws.ExprDepth }
    ensures stmts { laws.StmtDepth }
{}

/// The unit that all tokens are has no more forms open at once than may be opened: 64, as the parsers read it.
pub fn laws_of_units()
    ensures blocks { laws.BlockDepth }
    ensures classes { laws.ClassDepth }
    ensures triggers { laws.TriggerDepth }
{}

// How the binds of a query are read.

ghost use Rattle.token_grammar.specs.Readings.{Told};
ghost use Rattle.soql_parse.specs.Readers.{BindsBy};

use crate::rule::BindRule;
use apex_lexer::Token;
use apex_syntax::BindTree;
use token_grammar::Stop;

/// How the binds of a query are read: by a rule, and by a call that reads by it.
#[derive(Drop)]
pub struct Binds<K, B> {
    pub how: K,
    /// It takes the place of the colon, and how many forms may be open inside of the bind.
    pub read: B,
}

/// A bind, inside of which `room` more forms may be open.
pub fn bind<K: BindRule, B: Fn(usize, usize) -> Result<(BindTree, usize), Stop>>(
    tokens: &[Token],
    at: usize,
    room: usize,
    binds: &Binds<K, B>,
) -> Result<(BindTree, usize), Stop>
    requires calls { B.IsAlwaysCallable binds.now.read }
    requires told { BindsBy tokens.now (B.post binds.now.read) (K.rule binds.now.how) }
    ensures { Told tokens.now (K.rule binds.now.how room) at result }
{
    let _ = tokens;
    (binds.read)(at, room)
}

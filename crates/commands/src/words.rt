// Words of the command line.

ghost use Rattle.std.specs.Prelude.{map, string_bytes, MatchBool};
ghost use Rattle.commands.specs.Words as spec;

use turn_lists::lists_turns;

/// The command that words are.
#[derive(Clone, Copy, Debug, PartialEq, Eq, Drop)]
pub enum Row {
    /// `exec`
    Exec,
    /// `turns` and a list of turns.
    Turns,
    /// No command that is built.
    Usage,
}

fn is_exec(words: &[String]) -> bool
    ensures { MatchBool result (spec.IsExec (map string_bytes words.now)) (spec.IsExec (map string_bytes words.now) → ⊥) }
{
    match words {
        [word] => word.as_str() == "exec",
        _ => false,
    }
}

/// The command that these words are. It takes no memory.
pub fn command_row(words: &[String]) -> Row
    ensures { spec.IsRow (map string_bytes words.now) result }
{
    if is_exec(words) {
        Row::Exec
    } else if lists_turns(words) {
        Row::Turns
    } else {
        Row::Usage
    }
}

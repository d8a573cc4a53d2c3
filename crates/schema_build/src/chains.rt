// Chains of parents, each step looked at once over all of them.

ghost use Rattle.std.specs.Prelude.{◌≡◌, length};
ghost use Rattle.schema_plans.specs.Plans.{ends_within, parent_at};
ghost use Rattle.schema_build.specs.Chains.{EndsIn, Known, Walked};

/// The parent of a role, or the master of an object.
pub fn parent(parents: &[Option<usize>], role: usize) -> Option<usize>
    ensures { result ≡ parent_at parents.now role }
{
    match parents.get(role) {
        Some(parent) => *parent,
        None => None,
    }
}

// How many steps are noted for a role.
fn note(notes: &[Option<usize>], role: usize) -> Option<usize>
    ensures { result ≡ parent_at notes.now role }
{
    parent(notes, role)
}

// How many steps the chain from a role has, where it has at most as many as there are roles.
fn walk(parents: &[Option<usize>], notes: &[Option<usize>], from: usize) -> Option<usize>
    requires { Known parents.now notes.now }
    ensures { Walked parents.now from result }
{
    let most = parents.len();
    let mut role = from;
    'steps: for k in 0..most + 1 {
        if let Some(more) = note(notes, role) {
            return if more <= most - k {
                Some(k + more)
            } else {
                None
            };
        }
        match parent(parents, role) {
            Some(next) => role = next,
            None => return Some(k),
        }
    }
    None
}

// Notes how many steps the chain from a role has, and so for each role of the chain.
fn record(parents: &[Option<usize>], notes: &mut [Option<usize>], from: usize, count: usize)
    requires known { Known parents.now notes.old }
    requires ends { EndsIn parents.now count from }
    ensures known { Known parents.now notes.new }
{
    let mut role = from;
    let mut left = count;
    'steps: while role < notes.len() && notes[role].is_none() {
        notes[role] = Some(left);
        match parent(parents, role) {
            Some(next) if left > 0 => {
                role = next;
                left -= 1;
            }
            _ => return,
        }
    }
}

/// Whether the chain of parents from a role ends within as many steps as there are roles. It notes what it finds, so that
/// no step is taken twice where the chains end.
pub fn ends(parents: &[Option<usize>], notes: &mut [Option<usize>], from: usize) -> bool
    requires { Known parents.now notes.old }
    ensures ends { result ≡ ends_within parents.now (length parents.now) from }
    ensures known { Known parents.now notes.new }
{
    match walk(parents, notes, from) {
        Some(count) => {
            record(parents, notes, from, count);
            true
        }
        None => false,
    }
}

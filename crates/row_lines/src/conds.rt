// Conditions, what is made of others behind them: `FIELD=CELL` and with `!`, `<`, `{` (at most), `>`, `}` (at least)
// and `~` (LIKE) in the place of `=`; `FIELD@CELL,CELL` for IN and with `#` for NOT IN; `^` for NOT, `&N` and `|N` for
// AND and OR of so many.

use crate::cells::cell_of;
use apex_list::{Boxed, Items};
use apex_rows::{Cond, CondOp, Path, Term, Terms};
use std::alloc::{AllocError, Global};

fn op_of(sign: char) -> Option<CondOp> {
    match sign {
        '=' => Some(CondOp::Equal),
        '!' => Some(CondOp::Differs),
        '<' => Some(CondOp::Less),
        '{' => Some(CondOp::AtMost),
        '>' => Some(CondOp::More),
        '}' => Some(CondOp::AtLeast),
        '~' => Some(CondOp::Like),
        _ => None,
    }
}

// Fields with dots between them: all but the last one lead to parents.
fn path_of(alloc: Global, written: &str) -> Result<Path, AllocError> {
    let mut parents = Items::new(alloc);
    let mut field = 0;
    let mut is_first = true;
    for word in written.split('.') {
        if !is_first {
            parents.push(field)?;
        }
        is_first = false;
        field = word.parse().unwrap_or(0);
    }
    Ok(Path { parents, field })
}

fn within(alloc: Global, field: &str, negated: bool, list: &str) -> Result<Cond, AllocError> {
    let mut terms = Items::new(alloc);
    for word in list.split(',') {
        terms.push(Term::Given(cell_of(alloc, word)?))?;
    }
    let path = path_of(alloc, field)?;
    Ok(Cond::Within(path, negated, Terms::Given(terms)))
}

// A condition on one field.
fn simple(alloc: Global, written: &str) -> Result<Option<Cond>, AllocError> {
    if let Some((field, list)) = written.split_once('@') {
        return Ok(Some(within(alloc, field, false, list)?));
    }
    if let Some((field, list)) = written.split_once('#') {
        return Ok(Some(within(alloc, field, true, list)?));
    }
    for sign in ['=', '!', '<', '{', '>', '}', '~'] {
        if let Some((field, cell)) = written.split_once(sign) {
            if let Some(op) = op_of(sign) {
                let path = path_of(alloc, field)?;
                let term = Term::Given(cell_of(alloc, cell)?);
                return Ok(Some(Cond::Compare(path, op, term)));
            }
        }
    }
    Ok(None)
}

// So many conditions from the end of a list.
fn taken(alloc: Global, done: &mut Vec<Cond>, count: &str) -> Result<Items<Cond>, AllocError> {
    let mut conds = Items::new(alloc);
    let many: usize = count.parse().unwrap_or(0);
    for _ in 0..many {
        if let Some(cond) = done.pop() {
            conds.push(cond)?;
        }
    }
    Ok(conds)
}

pub fn cond_of(alloc: Global, written: &str) -> Result<Option<Cond>, AllocError> {
    let mut done: Vec<Cond> = Vec::new(alloc);
    for word in written.split_whitespace() {
        if word == "^" {
            if let Some(cond) = done.pop() {
                done.push(Cond::Not(Boxed::new(alloc, cond)?))?;
            }
        } else if let Some(count) = word.strip_prefix("&") {
            let conds = taken(alloc, &mut done, count)?;
            done.push(Cond::All(conds))?;
        } else if let Some(count) = word.strip_prefix("|") {
            let conds = taken(alloc, &mut done, count)?;
            done.push(Cond::Any(conds))?;
        } else if let Some(cond) = simple(alloc, word)? {
            done.push(cond)?;
        }
    }
    Ok(done.pop())
}

// An overlay that can go back.

ghost use Rattle.std.specs.Prelude.{◌≡◌, [], ◌∷◌, ◌≤◌, length, take, OnOk, OnErr};
ghost use Rattle.row_meaning.specs.Overlays.Change.{Now as NowIs, Gone as GoneIs};
ghost use Rattle.txn_overlay.specs.Changes.{KeyFits, changed, shown};
ghost use Rattle.txn_overlay.specs.Journals.{Layers, kept, undone};
ghost use Rattle.txn_overlay.specs.Logs.{Logged, back_to};

use crate::overlay::{Change, Overlay, Was};
use apex_list::{Items, Stack};
use apex_num::{Id, NoMemory};
use apex_rows::Row;
use std::alloc::{AllocError, Global};
use std::marker::Model;

/// The overlay of a transaction, and what it was where each statement began that is going on, the innermost first. It
/// isn't kept more than once: while statements are going on, a log has what stood at each Id that was changed, and of
/// each statement how long the log was where it began.
#[derive(Drop)]
pub struct Journal {
    overlay: Overlay,
    log: Items<Was>,
    marks: Stack<usize>,
}

impl Model for Journal {
    ghost use Rattle.std.specs.Prelude.{length};
    ghost use Rattle.txn_overlay.specs.Journals.{Layers};
    ghost use Rattle.txn_overlay.specs.Logs.{MarksFall, saved_at};

    ghost Value = { Layers };

    ghost view = { λ j. record { now = j.overlay; saved = saved_at j.marks j.log j.overlay } };

    ghost invariant = { λ j. MarksFall (length j.log) j.marks };
}

// Changes an Id, and adds to a log what stood there. Want of memory leaves both.
fn write_logged(
    overlay: &mut Overlay,
    log: &mut Items<Was>,
    id: Id,
    change: Change,
) -> Result<(), NoMemory>
    requires { KeyFits id change }
    ensures ok { OnOk result (overlay.new ≡ changed id (shown change) overlay.old) }
    ensures logged { OnOk result (Logged log.old log.new overlay.old overlay.new) }
    ensures err { OnErr result (overlay.new ≡ overlay.old) }
    ensures same { OnErr result (log.new ≡ log.old) }
{
    let at = log.len();
    log.push(Was::Untouched(id))?;
    match overlay.write(id, change) {
        Ok(was) => {
            log.set(at, was);
            Ok(())
        }
        Err(_) => {
            log.pop();
            Err(AllocError)
        }
    }
}

// Takes back what was changed since the log had this length.
fn take_back(overlay: &mut Overlay, log: &mut Items<Was>, mark: usize)
    requires { mark ≤ length log.old }
    ensures overlay { overlay.new ≡ back_to mark log.old overlay.old }
    ensures log { log.new ≡ take mark log.old }
{
    'back: while log.len() > mark {
        match log.pop() {
            Some(was) => overlay.put_back(was),
            None => return,
        }
    }
}

impl Journal {
    /// Without changes, and with no statement that is going on; takes no memory.
    pub fn new(alloc: Global) -> Journal
        ensures { result ≡ record { now = []; saved = [] } }
    {
        Journal {
            overlay: Overlay::new(alloc),
            log: Items::new(alloc),
            marks: Stack::new(alloc),
        }
    }

    /// What the transaction changed so far.
    pub fn overlay(&self) -> &Overlay
        ensures { result.now ≡ self.now.now }
    {
        &self.overlay
    }

    /// What the transaction changed, where it ends.
    pub fn into_overlay(self) -> Overlay
        ensures { result ≡ self.now }
    {
        let Journal {
            overlay,
            log: _,
            marks: _,
        } = self;
        overlay
    }

    // Changes an Id. What stood there is logged where a statement is going on.
    fn change(&mut self, id: Id, change: Change) -> Result<(), NoMemory>
        requires { KeyFits id change }
        ensures ok { OnOk result (self.new ≡ record { now = changed id (shown change) self.old.now; saved = self.old.saved }) }
        ensures err { OnErr result (self.new ≡ self.old) }
    {
        if self.marks.len() == 0 {
            self.overlay.write(id, change)?;
            return Ok(());
        }
        write_logged(&mut self.overlay, &mut self.log, id, change)
    }

    /// Writes a row, in place of an earlier change of its Id. Want of memory leaves all as it was.
    pub fn put(&mut self, row: Row) -> Result<(), NoMemory>
        ensures ok { OnOk result (self.new ≡ record { now = changed row.id (NowIs row) self.old.now; saved = self.old.saved }) }
        ensures err { OnErr result (self.new ≡ self.old) }
    {
        self.change(row.id, Change::Now(row))
    }

    /// Removes an Id. Want of memory leaves all as it was.
    pub fn remove(&mut self, id: Id) -> Result<(), NoMemory>
        ensures ok { OnOk result (self.new ≡ record { now = changed id GoneIs self.old.now; saved = self.old.saved }) }
        ensures err { OnErr result (self.new ≡ self.old) }
    {
        self.change(id, Change::Gone)
    }

    /// A statement begins, which copies no change. Want of memory leaves all as it was.
    pub fn save(&mut self) -> Result<(), NoMemory>
        ensures ok { OnOk result (self.new ≡ record { now = self.old.now; saved = self.old.now ∷ self.old.saved }) }
        ensures err { OnErr result (self.new ≡ self.old) }
    {
        let length = self.log.len();
        self.marks.push(length)
    }

    /// The innermost statement ends, and what it changed stays. It takes no memory.
    pub fn keep(&mut self)
        ensures { self.new ≡ kept self.old }
    {
        self.marks.pop();
        if self.marks.len() > 0 {
            return;
        }
        let alloc = self.log.allocator();
        self.log = Items::new(alloc);
    }

    /// The innermost statement ends, and what it changed is undone. It takes no memory.
    pub fn undo(&mut self)
        ensures { self.new ≡ undone self.old }
    {
        if let Some(mark) = self.marks.pop() {
            take_back(&mut self.overlay, &mut self.log, mark);
        }
    }
}

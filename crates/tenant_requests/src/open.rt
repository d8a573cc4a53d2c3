// Requests whose blocks aren't checked yet.

ghost use Rattle.std.specs.Prelude.{◌≡◌, [], length, IfOk};
ghost use Rattle.tenant_requests.specs.Requests as spec;

use apex_list::Items;
use apex_num::{NoMemory, Text};
use apex_requests::Work;
use apex_syntax::Unit;
use bundle_read::{RequestEntry, SessionEntry, WorkEntry};
use record_words::SchemaPlaces;
use save_requests::save_work;
use std::alloc::{AllocError, Global};
use tenant_units::{UnitFault, block_tree};

/// What a request does, as far as it is known before its block is checked.
#[derive(Drop)]
pub enum OpenWork {
    /// It runs the block with this number, whose text this is.
    Block(usize, Text),
    Known(Work),
}

/// A request whose block isn't checked yet.
#[derive(Drop)]
pub struct OpenRequest {
    /// The number of the user.
    pub user: usize,
    pub work: OpenWork,
    /// The moment of the request: seconds from 1970-01-01T00:00:00Z.
    pub now: i64,
}

/// The requests of a session.
#[derive(Drop)]
pub struct OpenSession {
    pub requests: Items<OpenRequest>,
}

/// The sessions of a tenant, and the trees of their blocks in the order of the sessions and their requests.
#[derive(Drop)]
pub struct OpenSessions {
    pub sessions: Items<OpenSession>,
    pub blocks: Items<Unit>,
}

fn block_work(alloc: Global, text: &Text, blocks: &mut Items<Unit>) -> Result<OpenWork, NoMemory>
    ensures { IfOk result (λ work. spec.IsBlockWork text.now blocks.old work blocks.new) }
{
    match block_tree(alloc, text.bytes()) {
        Ok(tree) => {
            let number = blocks.len();
            let text = text.copy()?;
            blocks.push(tree.into_value())?;
            Ok(OpenWork::Block(number, text))
        }
        Err(UnitFault::Wrong(fault)) => Ok(OpenWork::Known(Work::Refused(fault))),
        Err(UnitFault::NoMemory) => Err(AllocError),
    }
}

fn open_work(
    alloc: Global,
    places: &SchemaPlaces,
    entry: &WorkEntry,
    blocks: &mut Items<Unit>,
) -> Result<OpenWork, NoMemory>
    ensures { IfOk result (λ work. spec.IsOpenWork places.now.schema.now entry.now blocks.old work blocks.new) }
{
    match entry {
        WorkEntry::Apex(text) => block_work(alloc, text, blocks),
        WorkEntry::Save(save) => Ok(OpenWork::Known(save_work(alloc, places, save)?)),
    }
}

fn open_request(
    alloc: Global,
    places: &SchemaPlaces,
    user: usize,
    entry: &RequestEntry,
    blocks: &mut Items<Unit>,
) -> Result<OpenRequest, NoMemory>
    ensures { IfOk result (λ r. spec.IsOpen places.now.schema.now user entry.entry.now blocks.old r blocks.new) }
{
    let work = open_work(alloc, places, &entry.work, blocks)?;
    Ok(OpenRequest {
        user,
        work,
        now: entry.now,
    })
}

fn open_requests(
    alloc: Global,
    places: &SchemaPlaces,
    user: usize,
    entries: &[RequestEntry],
    blocks: &mut Items<Unit>,
) -> Result<Items<OpenRequest>, NoMemory>
    ensures { IfOk result (λ all. spec.AreOpen places.now.schema.now user entries.now blocks.old all blocks.new) }
{
    let mut all = Items::new(alloc);
    'entries: for i in 0..entries.len() {
        let request = open_request(alloc, places, user, &entries[i], blocks)?;
        all.push(request)?;
    }
    Ok(all)
}

/// The sessions with these users, and the trees of their blocks. A block without a tree is refused by its first fault, at
/// `block`, and a save as `save_work` says.
pub fn open_sessions(
    alloc: Global,
    places: &SchemaPlaces,
    users: &[usize],
    entries: &[SessionEntry],
) -> Result<OpenSessions, NoMemory>
    requires { length users.now ≡ length entries.now }
    ensures { IfOk result (λ all. spec.AreOpenSessions places.now.schema.now users.now entries.now [] all.sessions all.blocks) }
{
    let mut blocks = Items::new(alloc);
    let mut sessions = Items::new(alloc);
    'entries: for i in 0..entries.len() {
        let (user, session) = (users[i], &entries[i]);
        let requests = session.requests.as_slice();
        let requests = open_requests(alloc, places, user, requests, &mut blocks)?;
        sessions.push(OpenSession { requests })?;
    }
    Ok(OpenSessions { sessions, blocks })
}

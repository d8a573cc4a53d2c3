// The calls of a shard that serve a pause.

ghost use Rattle.std.specs.Prelude.{◌≡◌, ◌++◌, ◌∷◌, [], IfOk, OnOk};
ghost use Rattle.apex_rows.specs.declared.query.Question.TheVariants.{Grab};
ghost use Rattle.record_store.specs.Heaps.{rows_in};
ghost use Rattle.tenant_shards.specs.Logs.{IsStale};
ghost use Rattle.tenant_shards.specs.Shards as shards;
ghost use Rattle.session_turns.specs.Calls.{Answers, Beside, EndsIn, IsAgain, MayAsk, MayBeginAgain};

use apex_num::{Id, NoMemory};
use apex_requests::Reply;
use apex_rows::{Answer, Question, Writes};
use tenant_shards::{Ended, Grabbed, Log, Shard};

/// How a request goes on behind a pause.
#[derive(Drop)]
pub enum Next {
    /// With this answer.
    Goes(Answer),
    /// An answer that it had isn't what the rows answer now: it begins again, with none.
    Again,
    /// It is closed.
    Over,
}

// The answer at place k of the log isn't what the rows answer now: the request begins again.
fn begin_again(
    shard: &mut Shard,
    tenant: usize,
    session: u32,
    log: &Log,
    k: usize,
) -> Result<(), NoMemory>
    requires stale { IsStale (rows_in tenant shard.old.rows) log.now k }
    requires again { MayBeginAgain shard.old tenant session log.now }
    ensures again { OnOk result (IsAgain tenant session log.now shard.old shard.new) }
    ensures beside { OnOk result (Beside tenant session shard.old shard.new) }
{
    shard.restart(tenant, session, log, k)
}

// A request asks for rows alone. It begins again where an answer that it had differs now; otherwise they are granted, or
// another session holds one of them, and the request is closed.
fn grabbed(
    shard: &mut Shard,
    tenant: usize,
    session: u32,
    log: &Log,
    ids: &[Id],
) -> Result<Next, NoMemory>
    requires may { shards.MayGrab shard.old tenant session log.now ids.now }
    requires again { MayBeginAgain shard.old tenant session log.now }
    ensures answers { IfOk result (Answers tenant session log.now (Grab ids.now) shard.old shard.new) }
    ensures beside { OnOk result (Beside tenant session shard.old shard.new) }
{
    match shard.grab(tenant, session, log, ids)? {
        Grabbed::Granted => Ok(Next::Goes(Answer::Granted)),
        Grabbed::Held { .. } => Ok(Next::Over),
        Grabbed::Stale(k) => {
            begin_again(shard, tenant, session, log, k)?;
            Ok(Next::Again)
        }
    }
}

/// What a request asks is served: rows are answered as they are, and rows alone are granted or not.
pub fn answered(
    shard: &mut Shard,
    tenant: usize,
    session: u32,
    log: &Log,
    question: &Question,
) -> Result<Next, NoMemory>
    requires may { MayAsk shard.old tenant session log.now question.now }
    requires again { MayBeginAgain shard.old tenant session log.now }
    ensures answers { IfOk result (Answers tenant session log.now question.now shard.old shard.new) }
    ensures beside { OnOk result (Beside tenant session shard.old shard.new) }
{
    match question {
        Question::Read { .. } => Ok(Next::Goes(Answer::Rows(shard.read(tenant, question)?))),
        Question::Grab { ids } => grabbed(shard, tenant, session, log, ids.as_slice()),
    }
}

/// A log has one question more, with its answer.
pub fn logged(log: &mut Log, question: Question, answer: &Answer) -> Result<(), NoMemory>
    ensures asked { OnOk result (log.new.asked ≡ log.old.asked ++ question ∷ []) }
    ensures answers { OnOk result (log.new.answers ≡ log.old.answers ++ answer.now ∷ []) }
{
    let copy = answer.copy()?;
    log.asked.push(question)?;
    log.answers.push(copy)?;
    Ok(())
}

/// A request ends, or begins again where an answer that it had differs now.
pub fn end(
    shard: &mut Shard,
    tenant: usize,
    session: u32,
    log: &Log,
    reply: Reply,
    writes: Writes,
) -> Result<Next, NoMemory>
    requires may { shards.MayEnd shard.old tenant session log.now reply writes }
    requires again { MayBeginAgain shard.old tenant session log.now }
    ensures ends { IfOk result (EndsIn tenant session log.now reply writes shard.old shard.new) }
    ensures beside { OnOk result (Beside tenant session shard.old shard.new) }
{
    match shard.end(tenant, session, log, reply, writes)? {
        Ended::Closed => Ok(Next::Over),
        Ended::Stale(k) => {
            begin_again(shard, tenant, session, log, k)?;
            Ok(Next::Again)
        }
    }
}

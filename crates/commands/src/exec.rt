// One block, from bytes to bytes.

ghost use Rattle.std.specs.Prelude.{◌≡◌, ◌+◌, ◌≤◌, None, IfOk};
ghost use Rattle.commands.specs.Answers.{Cause, Makes, most_bytes};
ghost use Rattle.commands.specs.Exec as spec;
ghost use Rattle.commands.specs.Made as shown;

use crate::answer::{Answer, Made, input, output, status};
use crate::judge::{block_in, exec_schema, program_of};
use apex_io::{Sink, Source};
use apex_list::Items;
use apex_num::NoMemory;
use apex_requests::{Outcome, Reply, Ticket};
use apex_schema::Schema;
use apex_syntax::Unit;
use compile_unit::compile;
use fault_words::Fault;
use program_means::laws_of_images;
use reply_text::{put_fault, put_reply};
use session_runs::{laws_of_blocks, run_alone};
use stack_code::Image;
use std::alloc::{AllocError, Global};
use tenant_units::{UnitFault, block_tree, fault_at};
use type_names::TreeFault;
use typed_program::Program;

// The status where the bytes are no block that runs.
const REFUSED: u8 = 7;

// The moment of the block's request: 2000-01-01T00:00:00Z.
const MOMENT: i64 = 946_684_800;

/// Runs the block that the source gives, keeps its compiled code in `image`, and writes the counts line and the
/// debug lines to the sink. The status is 0 for that, 2 where the source failed, 4 where the sink failed, 5
/// where memory was refused, 6 where the source gives more than 67,108,864 bytes, and 7 where they are no well-typed
/// block or one that comes to a form that isn't built; then a line is written that tells their first fault and its line
/// and column, both from 1, or `refused block 1:1 NotYet`.
pub fn exec_text<S: Source, K: Sink>(
    alloc: Global,
    source: &mut S,
    sink: &mut K,
    image: &mut Option<Image>,
) -> u8
    requires { image.old ≡ None }
    ensures execs { spec.Execs image.new result (record { left = S.left source.old; later = S.left source.new; read_faults = S.faults source.old; read_faults_later = S.faults source.new; held = K.held sink.old; held_later = K.held sink.new; write_faults = K.faults sink.old; write_faults_later = K.faults sink.new }) }
    ensures read_counted { S.faults source.old ≤ S.faults source.new }
    ensures write_counted { K.faults sink.old ≤ K.faults sink.new }
    ensures asked { S.calls source.new ≤ S.calls source.old + most_bytes + 2 }
{
    status(exec(alloc, source, sink, image), REFUSED)
}

fn exec<S: Source, K: Sink>(
    alloc: Global,
    source: &mut S,
    sink: &mut K,
    image: &mut Option<Image>,
) -> Answer
    requires { image.old ≡ None }
    ensures cause { Cause (spec.Replied image.new) (spec.IsRefused image.new) result (record { left = S.left source.old; later = S.left source.new; read_faults = S.faults source.old; read_faults_later = S.faults source.new; held = K.held sink.old; held_later = K.held sink.new; write_faults = K.faults sink.old; write_faults_later = K.faults sink.new }) }
    ensures read_counted { S.faults source.old ≤ S.faults source.new }
    ensures write_counted { K.faults sink.old ≤ K.faults sink.new }
    ensures asked { S.calls source.new ≤ S.calls source.old + most_bytes + 2 }
{
    let bytes = match input(alloc, source) {
        Ok(bytes) => bytes,
        Err(answer) => return answer,
    };
    match made(alloc, &bytes, image) {
        Ok(made) => output(sink, &made),
        Err(_) => Answer::NoMemory,
    }
}

// What is made of the bytes.
fn made(alloc: Global, bytes: &[u8], image: &mut Option<Image>) -> Result<Made, NoMemory>
    requires { image.old ≡ None }
    ensures { IfOk result (Makes (spec.Replied image.new) (spec.IsRefused image.new) bytes.now) }
{
    match block_tree(alloc, bytes) {
        Ok(tree) => judged(alloc, bytes, tree.get(), image),
        Err(UnitFault::Wrong(fault)) => refused(alloc, &fault),
        Err(UnitFault::NoMemory) => Err(AllocError),
    }
}

// What is made of the bytes whose tree this is.
fn judged(
    alloc: Global,
    bytes: &[u8],
    tree: &Unit,
    image: &mut Option<Image>,
) -> Result<Made, NoMemory>
    requires tree { shown.IsOnlyTree bytes.now tree.now }
    requires image { image.old ≡ None }
    ensures { IfOk result (Makes (spec.Replied image.new) (spec.IsRefused image.new) bytes.now) }
{
    let schema = exec_schema(alloc)?;
    let program = program_of(alloc, &schema, tree)?;
    match block_in(&program) {
        Ok(_) => ran(alloc, bytes, &schema, &program, image),
        Err(fault) => ill_typed(alloc, bytes, fault),
    }
}

// The request of the block.
fn ticket() -> Ticket
    ensures { result ≡ spec.ticket }
{
    Ticket {
        session: 0,
        index: 0,
        user: 0,
        now: MOMENT,
    }
}

// What is made of a program that has a well-typed block.
fn ran(
    alloc: Global,
    bytes: &[u8],
    schema: &Schema,
    program: &Program,
    image: &mut Option<Image>,
) -> Result<Made, NoMemory>
    requires block { shown.HasOnlyBlock bytes.now program.now }
    requires schema { schema.now ≡ spec.schema }
    requires image { image.old ≡ None }
    ensures { IfOk result (Makes (spec.Replied image.new) (spec.IsRefused image.new) bytes.now) }
{
    laws_of_blocks();
    laws_of_images();
    let kept = compile(alloc, program)?;
    let (reply, _) = run_alone(alloc, &kept, 0, schema, ticket())?;
    let made = told(alloc, &reply)?;
    keep(&made, kept, image);
    Ok(made)
}

// The image is kept where the text of a run was made.
fn keep(made: &Made, kept: Image, image: &mut Option<Image>)
    ensures { image.new ≡ shown.kept_of made.now kept image.old }
{
    match made {
        Made::Text(_) => *image = Some(kept),
        Made::Line(_) => {}
    }
}

// What is made of a reply.
fn told(alloc: Global, reply: &Reply) -> Result<Made, NoMemory>
    ensures { IfOk result (shown.IsTold reply.now) }
{
    match &reply.outcome {
        Outcome::Ok | Outcome::Thrown(..) | Outcome::Limit(..) => text(alloc, reply),
        Outcome::Refused(fault) => refused(alloc, fault),
    }
}

fn text(alloc: Global, reply: &Reply) -> Result<Made, NoMemory>
    ensures { IfOk result (λ m. m ≡ shown.text reply.now) }
{
    let mut out = Vec::new(alloc);
    put_reply(&mut out, reply)?;
    Ok(Made::Text(Items::of(out)))
}

fn refused(alloc: Global, fault: &Fault) -> Result<Made, NoMemory>
    ensures { IfOk result (λ m. m ≡ shown.line fault.now) }
{
    let mut out = Vec::new(alloc);
    out.extend_from_slice(b"refused ")?;
    put_fault(&mut out, fault)?;
    out.extend_from_slice(b"\n")?;
    Ok(Made::Line(Items::of(out)))
}

// What is made of a block that the checker refuses.
fn ill_typed(alloc: Global, bytes: &[u8], fault: &TreeFault) -> Result<Made, NoMemory>
    ensures { IfOk result (shown.IsLineOf bytes.now fault.now) }
{
    match fault_at(alloc, "block", bytes, fault.at, fault.word) {
        UnitFault::Wrong(told) => refused(alloc, &told),
        UnitFault::NoMemory => Err(AllocError),
    }
}

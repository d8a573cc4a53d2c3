// The sessions of a bundle, turn by turn.

ghost use Rattle.std.specs.Prelude.{◌≡◌, ◌≤◌, ◌+◌, ◌++◌, ◌∷◌, [], IfOk, OnOk};
ghost use Rattle.bundle_read.specs.Laws.{AreBounded, IsBounded};
ghost use Rattle.commands.specs.Answers.{Cause, Makes, most_bytes};
ghost use Rattle.commands.specs.Turns as spec;

use crate::answer::{Answer, Made, input, output, status};
use crate::built::is_built;
use apex_io::{Sink, Source};
use apex_list::Items;
use apex_num::{NoMemory, Text};
use apex_requests::Event;
use bundle_read::{Bundle, BundleFault, TenantPlan, laws_of_bundles, read_bundle};
use fault_words::{Fault, FaultWord};
use reply_text::{put_escaped, report, word};
use stack_code::Image;
use std::alloc::{AllocError, Global};
use tenant_front::{FrontFault, front};
use tenant_parts::TenantPart;
use tenant_runs::{Ran, laws_of_parts, run_tenants};
use turn_lists::Turn;

// The status where the bytes are no bundle.
const BAD_BUNDLE: u8 = 3;

/// What a run leaves: of each tenant of its bundle the compiled code and the trail.
#[derive(Drop)]
pub struct Book {
    /// The image of each tenant's program; none where the tenant isn't deployed.
    pub images: Items<Option<Image>>,
    pub trails: Items<Items<Event>>,
}

// What tenants are: the fault of each or none, and its part where it is deployed.
#[derive(Drop)]
struct Judged {
    faults: Items<Option<Fault>>,
    parts: Items<Option<TenantPart>>,
}

fn not_yet(alloc: Global, place: &str) -> Result<Fault, NoMemory>
    ensures { IfOk result (λ fault. fault ≡ spec.not_yet_at place.now) }
{
    Ok(Fault {
        place: Text::from_str(alloc, place)?,
        word: FaultWord::NotYet,
    })
}

// A tenant more, with its fault or its part.
fn add(all: &mut Judged, fault: Option<Fault>, part: Option<TenantPart>) -> Result<(), NoMemory>
    ensures faults { OnOk result (all.new.faults ≡ all.old.faults ++ fault ∷ []) }
    ensures parts { OnOk result (all.new.parts ≡ all.old.parts ++ part ∷ []) }
{
    all.faults.push(fault)?;
    all.parts.push(part)
}

fn judge(alloc: Global, plan: &TenantPlan, all: &mut Judged) -> Result<(), NoMemory>
    requires { IsBounded plan.now }
    ensures { OnOk result (spec.JudgesNext plan.now all.old all.new) }
{
    match front(alloc, plan) {
        Ok(part) => {
            if is_built(plan) {
                add(all, None, Some(part))
            } else {
                add(all, Some(not_yet(alloc, "part")?), None)
            }
        }
        Err(FrontFault::Wrong(fault)) => add(all, Some(fault), None),
        Err(FrontFault::NoMemory) => Err(AllocError),
    }
}

fn all_judged(alloc: Global, tenants: &[TenantPlan]) -> Result<Judged, NoMemory>
    requires { AreBounded tenants.now }
    ensures { IfOk result (λ all. spec.AreJudged tenants.now all.faults all.parts) }
{
    let mut all = Judged {
        faults: Items::new(alloc),
        parts: Items::new(alloc),
    };
    'tenants: for plan in tenants {
        judge(alloc, plan, &mut all)?;
    }
    Ok(all)
}

// The text of a run, which the book keeps.
fn ran(alloc: Global, bundle: &Bundle, turns: &[Turn], book: &mut Book) -> Result<Made, NoMemory>
    requires { AreBounded bundle.now.tenants }
    ensures { IfOk result (spec.IsRunText turns.now bundle.now book.new) }
{
    laws_of_parts();
    let Judged { faults, parts } = all_judged(alloc, bundle.tenants.as_slice())?;
    let Ran { images, trails } = run_tenants(alloc, parts, turns)?;
    let text = report(alloc, bundle, faults.as_slice(), trails.as_slice())?;
    book.images = images;
    book.trails = trails;
    Ok(Made::Text(Items::of(text)))
}

fn bad_line(alloc: Global, fault: &Fault) -> Result<Made, NoMemory>
    ensures { IfOk result (λ made. made ≡ spec.bad_made fault.now) }
{
    let mut line = Vec::new(alloc);
    line.extend_from_slice(b"bad bundle at ")?;
    put_escaped(&mut line, fault.place.bytes())?;
    line.extend_from_slice(b": ")?;
    line.extend_from_slice(word(fault.word))?;
    line.extend_from_slice(b"\n")?;
    Ok(Made::Line(Items::of(line)))
}

// What is made of the bytes of a bundle.
fn made(alloc: Global, turns: &[Turn], bytes: &[u8], book: &mut Book) -> Result<Made, NoMemory>
    ensures { IfOk result (Makes (spec.Runs turns.now book.new) spec.Refuses bytes.now) }
{
    match read_bundle(alloc, bytes) {
        Ok(bundle) => {
            laws_of_bundles();
            ran(alloc, &bundle, turns, book)
        }
        Err(BundleFault::Wrong(fault)) => bad_line(alloc, &fault),
        Err(BundleFault::NoMemory) => Err(AllocError),
    }
}

/// Reads the bundle that the source gives, and runs the sessions of its tenants turn by turn on one shard: first the turns of the
/// list, each by the session that it names where that has a request that isn't closed, and else by the first such session, and then
/// those of the sessions that aren't at their ends, the first one first. It keeps the tenants' code and their trails in the book, and
/// writes the report to the sink. The status is 0 for that, 2 where the source failed, 3 where the bytes are no bundle, 4 where the
/// sink failed, 5 where memory was refused, and 6 where the source gives more than 67,108,864 bytes. With status 3 a line is written
/// that tells the first fault and its place.
pub fn run_turns_text<S: Source, K: Sink>(
    alloc: Global,
    turns: &[Turn],
    source: &mut S,
    sink: &mut K,
    book: &mut Book,
) -> u8
    requires images { book.old.images ≡ [] }
    requires trails { book.old.trails ≡ [] }
    ensures turns { spec.Turns turns.now book.new result (record { left = S.left source.old; later = S.left source.new; read_faults = S.faults source.old; read_faults_later = S.faults source.new; held = K.held sink.old; held_later = K.held sink.new; write_faults = K.faults sink.old; write_faults_later = K.faults sink.new }) }
    ensures read_counted { S.faults source.old ≤ S.faults source.new }
    ensures write_counted { K.faults sink.old ≤ K.faults sink.new }
    ensures asked { S.calls source.new ≤ S.calls source.old + most_bytes + 2 }
{
    status(run_turns(alloc, turns, source, sink, book), BAD_BUNDLE)
}

fn run_turns<S: Source, K: Sink>(
    alloc: Global,
    turns: &[Turn],
    source: &mut S,
    sink: &mut K,
    book: &mut Book,
) -> Answer
    ensures cause { Cause (spec.Runs turns.now book.new) spec.Refuses result (record { left = S.left source.old; later = S.left source.new; read_faults = S.faults source.old; read_faults_later = S.faults source.new; held = K.held sink.old; held_later = K.held sink.new; write_faults = K.faults sink.old; write_faults_later = K.faults sink.new }) }
    ensures read_counted { S.faults source.old ≤ S.faults source.new }
    ensures write_counted { K.faults sink.old ≤ K.faults sink.new }
    ensures asked { S.calls source.new ≤ S.calls source.old + most_bytes + 2 }
{
    let bytes = match input(alloc, source) {
        Ok(bytes) => bytes,
        Err(answer) => return answer,
    };
    match made(alloc, turns, &bytes, book) {
        Ok(made) => output(sink, &made),
        Err(_) => Answer::NoMemory,
    }
}

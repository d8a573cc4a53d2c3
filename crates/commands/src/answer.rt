// How commands read, answer and end.

ghost use Rattle.std.specs.Prelude.{◌≡◌, ◌≤◌, ◌+◌, MatchResult};
ghost use Rattle.commands.specs.Answers as spec;

use apex_io::{ReadFault, Sink, Source, read_all, write_all};
use apex_list::Items;
use std::alloc::Global;

/// The most bytes that a command reads: 64 MiB.
pub const MOST_BYTES: usize = 67_108_864;

/// How a command ends.
#[derive(Clone, Copy, Debug, PartialEq, Eq, Drop)]
pub enum Answer {
    /// The input was read and run, and all was written.
    Done,
    /// The source failed.
    ReadFault,
    /// The sink failed.
    WriteFault,
    /// Memory was refused.
    NoMemory,
    /// There are more bytes than a command reads.
    TooLong,
    /// The input is refused, and the line that says so was written.
    Refused,
}

/// What a command makes of its input.
#[derive(Drop)]
pub enum Made {
    /// The text of a run.
    Text(Items<u8>),
    /// The line that refuses the input.
    Line(Items<u8>),
}

/// The status of an answer; each command has its own where it refuses its input.
pub fn status(answer: Answer, refused: u8) -> u8
    ensures { result ≡ spec.status_of refused answer }
{
    match answer {
        Answer::Done => 0,
        Answer::ReadFault => 2,
        Answer::WriteFault => 4,
        Answer::NoMemory => 5,
        Answer::TooLong => 6,
        Answer::Refused => refused,
    }
}

/// Reads the input whole. Otherwise the source failed, gives more bytes than a command reads, or memory was refused.
pub fn input<S: Source>(alloc: Global, source: &mut S) -> Result<Vec<u8>, Answer>
    ensures read { MatchResult result (λ bytes. spec.ReadWhole (S.left source.old) (S.left source.new) bytes.items) (λ answer. spec.NotRead answer (S.left source.old) (S.left source.new) (S.faults source.old) (S.faults source.new)) }
    ensures counted { S.faults source.old ≤ S.faults source.new }
    ensures asked { S.calls source.new ≤ S.calls source.old + spec.most_bytes + 2 }
{
    match read_all(alloc, source, MOST_BYTES) {
        Ok(bytes) => Ok(bytes),
        Err(ReadFault::Failed) => Err(Answer::ReadFault),
        Err(ReadFault::TooLong) => Err(Answer::TooLong),
        Err(ReadFault::NoMemory) => Err(Answer::NoMemory),
    }
}

/// Writes what was made: the answer is that all was written, or that the sink failed.
pub fn output<K: Sink>(sink: &mut K, made: &Made) -> Answer
    ensures written { spec.Written result made.now (K.held sink.old) (K.held sink.new) (K.faults sink.old) (K.faults sink.new) }
    ensures counted { K.faults sink.old ≤ K.faults sink.new }
{
    match made {
        Made::Text(text) => match write_all(sink, text.as_slice()) {
            Ok(()) => Answer::Done,
            Err(_) => Answer::WriteFault,
        },
        Made::Line(line) => match write_all(sink, line.as_slice()) {
            Ok(()) => Answer::Refused,
            Err(_) => Answer::WriteFault,
        },
    }
}

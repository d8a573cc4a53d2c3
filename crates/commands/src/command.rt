// What the words of the command line ask for.

ghost use Rattle.std.specs.Prelude.{◌≡◌, ◌≤◌, ◌+◌, [], None, List, map, string_bytes};
ghost use Rattle.turn_lists.specs.Lists.{IsCommand, ListsTurns};
ghost use Rattle.turn_lists.specs.declared.turn.Turn.{Turn as TheTurn};
ghost use Rattle.commands.specs.Answers.{most_bytes};
ghost use Rattle.commands.specs.Commands.{Answers};
ghost use Rattle.commands.specs.Turns.{Turns};

use crate::exec::exec_text;
use crate::turns::{Book, run_turns_text};
use crate::words::{Row, command_row};
use apex_io::{Sink, Source, write_all};
use apex_list::Items;
use stack_code::Image;
use std::alloc::Global;
use turn_lists::{TurnsFault, laws_of_lists, read_turns};

/// What a command keeps of its run.
#[derive(Drop)]
pub struct Kept {
    /// The compiled code of `exec`.
    pub image: Option<Image>,
    /// The compiled code and the trails of `turns`.
    pub book: Book,
}

impl Kept {
    /// Nothing is kept.
    pub fn new(alloc: Global) -> Kept
        ensures image { result.image ≡ None }
        ensures images { result.book.images ≡ [] }
        ensures trails { result.book.trails ≡ [] }
    {
        Kept {
            image: None,
            book: Book {
                images: Items::new(alloc),
                trails: Items::new(alloc),
            },
        }
    }
}

const USAGE: &[u8] = b"usage: apexd run --workers W --shards N | apexd turns LIST | apexd exec\n";

// Runs the turns that the words list. Where memory for them is refused, the status is 5, and nothing was read or written.
fn listed_text<S: Source, K: Sink>(
    alloc: Global,
    words: &[String],
    source: &mut S,
    sink: &mut K,
    book: &mut Book,
) -> u8
    requires listed { ListsTurns (map string_bytes words.now) }
    requires images { book.old.images ≡ [] }
    requires trails { book.old.trails ≡ [] }
    ensures turns { (turns : List TheTurn) → IsCommand (map string_bytes words.now) turns → Turns turns book.new result (record { left = S.left source.old; later = S.left source.new; read_faults = S.faults source.old; read_faults_later = S.faults source.new; held = K.held sink.old; held_later = K.held sink.new; write_faults = K.faults sink.old; write_faults_later = K.faults sink.new }) }
    ensures read_counted { S.faults source.old ≤ S.faults source.new }
    ensures write_counted { K.faults sink.old ≤ K.faults sink.new }
    ensures asked { S.calls source.new ≤ S.calls source.old + most_bytes + 2 }
{
    laws_of_lists();
    match read_turns(alloc, words) {
        Ok(turns) => run_turns_text(alloc, &turns, source, sink, book),
        Err(TurnsFault::NotTurns) => unreachable!(),
        Err(TurnsFault::NoMemory) => 5,
    }
}

/// Does what the words ask for: the single word `exec` is for `exec_text`, `turns` and a list of turns for `run_turns_text`.
/// Where they are no command that is built, it writes a line that tells the commands, and the status is 1, or 4 where the
/// sink failed.
pub fn top<S: Source, K: Sink>(
    alloc: Global,
    words: &[String],
    source: &mut S,
    sink: &mut K,
    kept: &mut Kept,
) -> u8
    requires image { kept.old.image ≡ None }
    requires images { kept.old.book.images ≡ [] }
    requires trails { kept.old.book.trails ≡ [] }
    ensures answers { Answers (map string_bytes words.now) kept.new.image kept.new.book result (record { left = S.left source.old; later = S.left source.new; read_faults = S.faults source.old; read_faults_later = S.faults source.new; held = K.held sink.old; held_later = K.held sink.new; write_faults = K.faults sink.old; write_faults_later = K.faults sink.new }) }
    ensures read_counted { S.faults source.old ≤ S.faults source.new }
    ensures write_counted { K.faults sink.old ≤ K.faults sink.new }
    ensures asked { S.calls source.new ≤ S.calls source.old + most_bytes + 2 }
{
    match command_row(words) {
        Row::Exec => exec_text(alloc, source, sink, &mut kept.image),
        Row::Turns => listed_text(alloc, words, source, sink, &mut kept.book),
        Row::Usage => match write_all(sink, USAGE) {
            Ok(()) => 1,
            Err(_) => 4,
        },
    }
}

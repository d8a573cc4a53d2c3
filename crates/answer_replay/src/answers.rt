// The answers that are left, and what an inquiry comes to.

ghost use Rattle.std.specs.Prelude.{◌≡◌, List, [], ◌∷◌, MatchOption};
ghost use Rattle.apex_rows.specs.declared.query.Answer.{Answer as Given};
ghost use Rattle.save_statements.specs.declared.pending.Record.{Record as OnItsWay};
ghost use Rattle.save_statements.specs.Inquiries as phases;
ghost use Rattle.store_inquiries.specs.Inquiries.{Inquiry};
ghost use Rattle.answer_replay.specs.Playing.{Plays};

use apex_list::Items;
use apex_rows::{Answer, Question};
use save_statements::{Record, Replayed};
use std::marker::Model;

/// The answers that are left: each question takes the next one.
#[derive(Drop)]
pub struct Answers<'a> {
    rest: &'a [Answer],
}

impl<'a> Model for Answers<'a> {
    ghost use Rattle.std.specs.Prelude.{List};
    ghost use Rattle.apex_rows.specs.declared.query.Answer.{Answer as Given};

    ghost Value = { List Given };

    ghost view = { λ a. a.rest.now };
}

/// What an inquiry comes to on the answers that it had so far.
#[derive(Drop)]
pub enum Comes<T> {
    /// It found this.
    Found(T),
    /// It wants one question more answered.
    Wants(Question),
}

impl<'a> Answers<'a> {
    /// All of these are left.
    pub fn new(answers: &'a [Answer]) -> Answers<'a>
        ensures { result ≡ answers.now }
    {
        Answers { rest: answers }
    }

    /// Takes the next answer, or answers `None` where none is left.
    pub fn next(&mut self) -> Option<&'a Answer>
        ensures { MatchOption result ((self.old ≡ []) × (self.new ≡ [])) (λ answer. self.old ≡ answer.now ∷ self.new) }
    {
        let (answer, rest) = self.rest.split_first()?;
        self.rest = rest;
        Some(answer)
    }
}

/// What a phase came to, for whoever has its answers. Whatever it is that comes to this on some answers, this is what it comes to
/// on these.
pub fn replayed(comes: Comes<Items<Record>>) -> Replayed
    ensures { (i : Inquiry (List OnItsWay)) (before after : List Given) → Plays i before comes after → result ≡ phases.replayed i before }
{
    match comes {
        Comes::Found(records) => Replayed::Came(records),
        Comes::Wants(question) => Replayed::Wants(question),
    }
}

// Which places of a text stand between brackets.

ghost use Rattle.std.specs.Prelude.{◌≡◌, ◌≤◌, ◌<◌, ◌^◌, ℕ, List, true, take, length, slice_index, IfOk, MatchResult};
ghost use Rattle.apex_lexer.specs.Brackets.{from_code, next, code_bracket, bracket, opened_by, opened, part_after as part_behind, inside};
ghost use Rattle.apex_lexer.specs.Unclosed.{noted, unclosed, IsCursor, IsBelow};

use std::alloc::{AllocError, Global};

/// The part of a text that a byte stands in.
#[derive(Clone, Copy, Debug, PartialEq, Eq, Drop)]
pub enum Part {
    /// Neither a comment nor a text literal.
    Code,
    /// Code behind a slash, which may begin a comment.
    Slash,
    /// A comment to the end of its line.
    Line,
    /// A comment up to an asterisk and a slash.
    Block,
    /// Such a comment behind an asterisk.
    Star,
    /// A text literal.
    Quote,
    /// A text literal behind a backslash.
    Escape,
}

/// What a byte is among the brackets of a text.
#[derive(Clone, Copy, Debug, PartialEq, Eq, Drop)]
pub enum Bracket {
    Opens,
    Closes,
    Neither,
}

// The part that a byte of code leads to.
fn part_from_code(b: u8) -> Part
    ensures { result ≡ from_code b }
{
    match b {
        b'\'' => Part::Quote,
        b'/' => Part::Slash,
        _ => Part::Code,
    }
}

// The part that a byte of a block comment leads to.
fn part_from_block(b: u8) -> Part
    ensures { result ≡ next Part.Block b }
{
    if b == b'*' { Part::Star } else { Part::Block }
}

// The part that a byte leads to.
fn part_after(part: Part, b: u8) -> Part
    ensures { result ≡ next part b }
{
    match (part, b) {
        (Part::Slash, b'/') => Part::Line,
        (Part::Slash, b'*') => Part::Block,
        (Part::Code | Part::Slash, _) => part_from_code(b),
        (Part::Line | Part::Escape | Part::Quote, b'\n') => Part::Code,
        (Part::Line, _) => Part::Line,
        (Part::Star, b'/') => Part::Code,
        (Part::Block | Part::Star, _) => part_from_block(b),
        (Part::Quote, b'\'') => Part::Code,
        (Part::Quote, b'\\') => Part::Escape,
        (Part::Quote | Part::Escape, _) => Part::Quote,
    }
}

fn bracket_in_code(b: u8) -> Bracket
    ensures { result ≡ code_bracket b }
{
    match b {
        b'[' => Bracket::Opens,
        b']' => Bracket::Closes,
        _ => Bracket::Neither,
    }
}

fn bracket_at(part: Part, b: u8) -> Bracket
    ensures { result ≡ bracket part b }
{
    match part {
        Part::Code | Part::Slash => bracket_in_code(b),
        _ => Bracket::Neither,
    }
}

// The places of the open brackets behind a byte, of those that are open before it.
fn note(stack: &mut Vec<usize>, mark: Bracket, at: usize) -> Result<(), AllocError>
    ensures { IfOk result (λ _. stack.new.items ≡ noted mark at stack.old.items) }
{
    match mark {
        Bracket::Opens => {
            stack.push(at)?;
            Ok(())
        }
        Bracket::Closes => {
            stack.pop();
            Ok(())
        }
        Bracket::Neither => Ok(()),
    }
}

// Where the brackets stand that no bracket closes, in their order.
fn unclosed_of(alloc: Global, text: &[u8]) -> Result<Vec<usize>, AllocError>
    ensures { IfOk result (λ places. places.items ≡ unclosed Part.Code 0 text.now) }
{
    let mut stack = Vec::new(alloc);
    let mut part = Part::Code;
    for (at, b) in text.iter().enumerate() {
        note(&mut stack, bracket_at(part, *b), at)?;
        part = part_after(part, *b);
    }
    Ok(stack)
}

// How many brackets are open behind a byte.
fn count(mark: Bracket, depth: usize) -> usize
    requires { depth < 2 ^ 63 }
    ensures { result ≡ opened_by mark depth }
{
    match mark {
        Bracket::Opens => depth + 1,
        Bracket::Closes => depth.saturating_sub(1),
        Bracket::Neither => depth,
    }
}

// The part and the number of open brackets at a place, from those at an earlier one.
fn walk(text: &[u8], from: usize, to: usize, part: Part, depth: usize) -> (Part, usize)
    requires from { from ≤ to }
    requires to { to ≤ length text.now }
    requires part { part ≡ part_behind Part.Code (take from text.now) }
    requires depth { depth ≡ opened Part.Code 0 (take from text.now) }
    ensures part { result.0 ≡ part_behind Part.Code (take to text.now) }
    ensures depth { result.1 ≡ opened Part.Code 0 (take to text.now) }
{
    let mut part = part;
    let mut depth = depth;
    for i in from..to {
        depth = count(bracket_at(part, text[i]), depth);
        part = part_after(part, text[i]);
    }
    (part, depth)
}

// How many of the places, which rise, are below this one, where so many are known to be.
fn below(places: &[usize], known: usize, at: usize) -> usize
    requires { IsBelow places.now known at }
    ensures below { IsBelow places.now result at }
    ensures next { result < length places.now → at ≤ slice_index places.now result }
{
    let mut passed = known;
    while passed < places.len() && places[passed] < at {
        passed += 1;
    }
    passed
}

/// What is known of the brackets of a text up to a place. It takes memory and a look at the whole text only once
/// it is asked, for the places of the brackets that stay open.
#[derive(Debug, Drop)]
pub struct Brackets {
    pub looked: bool,
    pub unclosed: Vec<usize>,
    pub at: usize,
    pub part: Part,
    pub depth: usize,
    pub passed: usize,
}

impl Brackets {
    /// At the start of a text.
    pub fn new(alloc: Global) -> Brackets
        ensures cursor { (text : List ℕ) → IsCursor text result }
        ensures at { result.at ≡ 0 }
    {
        Brackets {
            looked: false,
            unclosed: Vec::new(alloc),
            at: 0,
            part: Part::Code,
            depth: 0,
            passed: 0,
        }
    }

    // Looks for the brackets that no bracket closes.
    fn look(&mut self, alloc: Global, text: &[u8]) -> Result<(), AllocError>
        requires { IsCursor text.now self.old }
        ensures { IfOk result (λ _. IsCursor text.now self.new × (self.new.looked ≡ true) × (self.new.at ≡ self.old.at)) }
    {
        if !self.looked {
            self.unclosed = unclosed_of(alloc, text)?;
            self.looked = true;
            self.passed = 0;
        }
        Ok(())
    }

    // Goes on to a place.
    fn go_to(&mut self, text: &[u8], to: usize)
        requires cursor { IsCursor text.now self.old }
        requires looked { self.old.looked ≡ true }
        requires from { self.old.at ≤ to }
        requires to { to ≤ length text.now }
        ensures cursor { IsCursor text.now self.new }
        ensures at { self.new.at ≡ to }
        ensures looked { self.new.looked ≡ true }
        ensures next { self.new.passed < length self.new.unclosed.items → to ≤ slice_index self.new.unclosed.items self.new.passed }
    {
        let (part, depth) = walk(text, self.at, to, self.part, self.depth);
        self.part = part;
        self.depth = depth;
        self.at = to;
        self.passed = below(self.unclosed.as_slice(), self.passed, to);
    }

    /// Whether a place stands between a bracket and the one that closes it. The places that are asked for rise.
    pub fn is_inside(&mut self, alloc: Global, text: &[u8], at: usize) -> Result<bool, AllocError>
        requires cursor { IsCursor text.now self.old }
        requires from { self.old.at ≤ at }
        requires to { at ≤ length text.now }
        ensures answer { IfOk result (λ answer. answer ≡ inside text.now at) }
        ensures cursor { IfOk result (λ _. IsCursor text.now self.new) }
        ensures at { IfOk result (λ _. self.new.at ≡ at) }
    {
        self.look(alloc, text)?;
        self.go_to(text, at);
        Ok(self.passed < self.depth)
    }
}

// Texts of values.

ghost use Rattle.std.specs.Prelude.{◌≡◌, ◌<◌, ◌^◌, ◌++◌, ◌+◌, ◌%◌, ◌∷◌, [], IfOk, OnOk, string_bytes, length};
ghost use Rattle.apex_num.specs.Decimals.{dec_text};
ghost use Rattle.apex_num.specs.Ids.{long_id};
ghost use Rattle.apex_num.specs.declared.cell.Cell.TheVariants as Cells;
ghost use Rattle.builtin_table.specs.Shown as spec;

use apex_num::{Cell, Dec, Id, Text, id_18, print_dec};
use civil_dates::{Civil, civil, split};
use itoa::Buffer;
use std::alloc::{AllocError, Global};

// Adds the last digit of a number.
fn add_digit(line: &mut String, n: u32) -> Result<(), AllocError>
    ensures { OnOk result (string_bytes line.new ≡ string_bytes line.old ++ ((48 + n % 10) ∷ [])) }
{
    line.push(char::from(b'0' + (n % 10) as u8))
}

// Adds the last two digits of a number.
fn add_two(line: &mut String, n: u32) -> Result<(), AllocError>
    ensures { OnOk result (string_bytes line.new ≡ string_bytes line.old ++ spec.digits 2 n) }
{
    add_digit(line, n / 10)?;
    add_digit(line, n)
}

// Adds the last four digits of a number.
fn add_four(line: &mut String, n: u32) -> Result<(), AllocError>
    ensures { OnOk result (string_bytes line.new ≡ string_bytes line.old ++ spec.digits 4 n) }
{
    add_digit(line, n / 10 / 10 / 10)?;
    add_digit(line, n / 10 / 10)?;
    add_digit(line, n / 10)?;
    add_digit(line, n)
}

fn add_date(line: &mut String, date: &Civil) -> Result<(), AllocError>
    ensures { OnOk result (string_bytes line.new ≡ string_bytes line.old ++ spec.date_text (record { year = date.now.year; month = date.now.month; day = date.now.day })) }
{
    add_four(line, u32::from(date.year))?;
    line.push('-')?;
    add_two(line, u32::from(date.month))?;
    line.push('-')?;
    add_two(line, u32::from(date.day))
}

fn add_clock(line: &mut String, second: u32) -> Result<(), AllocError>
    ensures { OnOk result (string_bytes line.new ≡ string_bytes line.old ++ spec.clock_text second) }
{
    add_two(line, second / 3600)?;
    line.push(':')?;
    add_two(line, second / 60 % 60)?;
    line.push(':')?;
    add_two(line, second % 60)
}

// Adds a day, where it is one of the years 1 to 9999.
fn add_day(line: &mut String, day: i32) -> Result<(), AllocError>
    ensures { OnOk result (string_bytes line.new ≡ string_bytes line.old ++ spec.shown (Cells.Day day)) }
{
    match civil(day) {
        Some(date) => add_date(line, &date),
        None => Ok(()),
    }
}

// Adds a moment, where it is one of the years 1 to 9999.
fn add_moment(line: &mut String, moment: i64) -> Result<(), AllocError>
    ensures { OnOk result (string_bytes line.new ≡ string_bytes line.old ++ spec.shown (Cells.Moment moment)) }
{
    match split(moment) {
        Some((day, second)) => {
            add_day(line, day)?;
            line.push(' ')?;
            add_clock(line, second)
        }
        None => Ok(()),
    }
}

fn day_text(alloc: Global, day: i32) -> Result<Text, AllocError>
    ensures { IfOk result (λ t. t ≡ spec.shown (Cells.Day day)) }
{
    let mut line = String::new(alloc);
    add_day(&mut line, day)?;
    Text::from_string(alloc, line)
}

fn moment_text(alloc: Global, moment: i64) -> Result<Text, AllocError>
    ensures { IfOk result (λ t. t ≡ spec.shown (Cells.Moment moment)) }
{
    let mut line = String::new(alloc);
    add_moment(&mut line, moment)?;
    Text::from_string(alloc, line)
}

fn whole_text(alloc: Global, n: i64) -> Result<Text, AllocError>
    ensures { IfOk result (λ t. t ≡ spec.shown (Cells.Whole n)) }
{
    let mut buffer = Buffer::new();
    Text::from_str(alloc, buffer.format(n))
}

/// The shortest text of a Decimal.
pub(crate) fn decimal_text(alloc: Global, d: Dec) -> Result<Text, AllocError>
    ensures { IfOk result (λ t. t ≡ dec_text d) }
{
    let mut buffer = [0; 24];
    let length = print_dec(d, &mut buffer);
    match str::from_utf8(&buffer[..length]) {
        Ok(text) => Text::from_str(alloc, text),
        Err(_) => unreachable!(),
    }
}

fn id_text(alloc: Global, id: &Id) -> Result<Text, AllocError>
    ensures { IfOk result (λ t. t ≡ long_id id.now) }
{
    let long = id_18(id);
    // The form of an Id tells the proof that it is text.
    let _told = id.bytes();
    match str::from_utf8(&long) {
        Ok(text) => Text::from_str(alloc, text),
        Err(_) => unreachable!(),
    }
}

/// The text of a primitive value, as it is joined to a String, printed by `System.debug` and answered by
/// `String.valueOf`: numbers in decimal, a Decimal without zeros at its end, a Date as `YYYY-MM-DD`, a Datetime as
/// `YYYY-MM-DD hh:mm:ss`, an Id with 18 characters, null as `null`.
pub fn text_of(alloc: Global, cell: &Cell) -> Result<Text, AllocError>
    ensures { IfOk result (λ t. t ≡ spec.shown cell.now) }
{
    match cell {
        Cell::Null => Text::from_str(alloc, "null"),
        Cell::Bool(b) => Text::from_str(alloc, if *b { "true" } else { "false" }),
        Cell::Whole(n) => whole_text(alloc, *n),
        Cell::Num(d) => decimal_text(alloc, *d),
        Cell::Text(text) => text.copy(),
        Cell::Id(id) => id_text(alloc, id),
        Cell::Day(n) => day_text(alloc, *n),
        Cell::Moment(n) => moment_text(alloc, *n),
    }
}

/// How many bytes `text_of` answers.
pub fn text_length(cell: &Cell) -> usize
    ensures value { result ≡ length (spec.shown cell.now) }
    ensures small { result < 2 ^ 63 }
{
    match cell {
        Cell::Null => 4,
        Cell::Bool(b) => if *b { 4 } else { 5 },
        Cell::Whole(n) => Buffer::new().format(*n).len(),
        Cell::Num(d) => print_dec(*d, &mut [0; 24]),
        Cell::Text(text) => text.bytes().len(),
        Cell::Id(id) => id_18(id).len(),
        Cell::Day(n) => if civil(*n).is_some() { 10 } else { 0 },
        Cell::Moment(n) => if split(*n).is_some() { 19 } else { 0 },
    }
}

// The sizes of the texts that methods answer.

ghost use Rattle.std.specs.Prelude.{◌≡◌, MatchOption};
ghost use Rattle.builtin_sizes.specs.Sizes.{sized};
ghost use Rattle.builtin_table.specs.Meanings as spec;
ghost use Rattle.builtin_table.specs.declared.method.Builtin.TheVariants as B;

use apex_num::{Cell, Dec, Text, print_dec};
use builtin_table::{
    Builtin, DecimalMethod, TextAtMethod, TextMethod, TextsMethod, has_null, text_length,
};

fn of_text(method: TextMethod, s: &str) -> Option<u64>
    ensures { result ≡ sized (spec.text_meaning method s.now) }
{
    match method {
        TextMethod::ToLowerCase | TextMethod::ToUpperCase => Some(s.len() as u64),
        TextMethod::Capitalize => Some(s.len() as u64),
        TextMethod::Uncapitalize => Some(s.len() as u64),
        TextMethod::Trim => Some(text_methods::trim(s).len() as u64),
        TextMethod::Reverse => Some(s.len() as u64),
        TextMethod::Length | TextMethod::IsNumeric => None,
    }
}

fn of_texts(method: TextsMethod, s: &str, t: &str) -> Option<u64>
    ensures { result ≡ sized (spec.texts_meaning method s.now t.now) }
{
    match method {
        TextsMethod::Remove => Some(text_methods::replaced_size(s, t, "")),
        TextsMethod::RemoveStart => Some(text_methods::without_start(s, t).len() as u64),
        TextsMethod::RemoveEnd => Some(text_methods::without_end(s, t).len() as u64),
        TextsMethod::SubstringBefore => Some(text_methods::before(s, t).len() as u64),
        TextsMethod::SubstringAfter => Some(text_methods::after(s, t).len() as u64),
        _ => None,
    }
}

fn of_part(cut: Option<&str>) -> Option<u64>
    ensures { MatchOption cut.entry (result ≡ None) (λ s. result ≡ sized (spec.text s.now)) }
{
    match cut {
        Some(text) => Some(text.len() as u64),
        None => None,
    }
}

fn of_text_at(method: TextAtMethod, s: &Text, n: i64) -> Option<u64>
    ensures { result ≡ sized (spec.text_at_meaning method s.now n) }
{
    match method {
        TextAtMethod::Substring => of_part(text_methods::part_from(s, n)),
        TextAtMethod::Left => Some(text_methods::left(s, n).len() as u64),
        TextAtMethod::Right => Some(text_methods::right(s, n).len() as u64),
        TextAtMethod::Repeat => Some(text_methods::repeated_size(s.as_str(), n)),
        TextAtMethod::LeftPad | TextAtMethod::RightPad => Some(text_methods::padded_size(
            s.as_str(),
            n,
        )),
    }
}

fn on_text(method: TextMethod, args: &[Cell]) -> Option<u64>
    ensures { result ≡ sized (spec.plain (B.Text method) args.now) }
{
    match args {
        [Cell::Text(s)] => of_text(method, s.as_str()),
        _ => None,
    }
}

fn on_texts(method: TextsMethod, args: &[Cell]) -> Option<u64>
    ensures { result ≡ sized (spec.plain (B.Texts method) args.now) }
{
    match args {
        [Cell::Text(s), Cell::Text(t)] => of_texts(method, s.as_str(), t.as_str()),
        _ => None,
    }
}

fn on_text_at(method: TextAtMethod, args: &[Cell]) -> Option<u64>
    ensures { result ≡ sized (spec.plain (B.TextAt method) args.now) }
{
    match args {
        [Cell::Text(s), Cell::Whole(n)] => of_text_at(method, s, *n),
        _ => None,
    }
}

fn substring_to(args: &[Cell]) -> Option<u64>
    ensures { result ≡ sized (spec.plain B.SubstringTo args.now) }
{
    match args {
        [Cell::Text(s), Cell::Whole(n), Cell::Whole(m)] => {
            of_part(text_methods::part(s, *n, *m))
        }
        _ => None,
    }
}

fn mid(args: &[Cell]) -> Option<u64>
    ensures { result ≡ sized (spec.plain B.Mid args.now) }
{
    match args {
        [Cell::Text(s), Cell::Whole(n), Cell::Whole(m)] => {
            Some(text_methods::mid(s, *n, *m).len() as u64)
        }
        _ => None,
    }
}

fn replace(args: &[Cell]) -> Option<u64>
    ensures { result ≡ sized (spec.plain B.Replace args.now) }
{
    match args {
        [Cell::Text(s), Cell::Text(t), Cell::Text(u)] => Some(text_methods::replaced_size(
            s.as_str(),
            t.as_str(),
            u.as_str(),
        )),
        _ => None,
    }
}

fn of_decimal(method: DecimalMethod, d: Dec) -> Option<u64>
    ensures { result ≡ sized (spec.decimal_meaning method d) }
{
    match method {
        DecimalMethod::ToPlainString => Some(print_dec(d, &mut [0; 24]) as u64),
        DecimalMethod::IntValue => None,
        DecimalMethod::LongValue => None,
        DecimalMethod::Round => None,
        DecimalMethod::Abs => None,
    }
}

fn of_long(method: DecimalMethod, n: i64) -> Option<u64>
    ensures { result ≡ sized (spec.long_meaning method n) }
{
    let (_method, _n) = (method, n);
    None
}

fn on_number(method: DecimalMethod, args: &[Cell]) -> Option<u64>
    ensures { result ≡ sized (spec.plain (B.Decimal method) args.now) }
{
    match args {
        [Cell::Num(d)] => of_decimal(method, *d),
        [Cell::Whole(n)] => of_long(method, *n),
        _ => None,
    }
}

// A call none of whose arguments is null.
fn plain(which: Builtin, args: &[Cell]) -> Option<u64>
    ensures { result ≡ sized (spec.plain which args.now) }
{
    match which {
        Builtin::Text(method) => on_text(method, args),
        Builtin::Texts(method) => on_texts(method, args),
        Builtin::TextAt(method) => on_text_at(method, args),
        Builtin::SubstringTo => substring_to(args),
        Builtin::Mid => mid(args),
        Builtin::Replace => replace(args),
        Builtin::Decimal(method) => on_number(method, args),
        _ => None,
    }
}

fn text_of_size(args: &[Cell]) -> Option<u64>
    ensures { result ≡ sized (spec.meaning B.TextOf args.now) }
{
    match args {
        [cell] => Some(text_length(cell) as u64),
        _ => None,
    }
}

/// How many bytes the text has that `call_builtin` answers, or 2^64 - 1 where there are more. `None` exactly where it
/// answers no text or throws. It takes no memory.
pub fn text_size(which: Builtin, args: &[Cell]) -> Option<u64>
    ensures { result ≡ sized (spec.meaning which args.now) }
{
    match which {
        Builtin::Nullable(_) => None,
        Builtin::TextOf => text_of_size(args),
        _ => {
            if has_null(args) {
                return None;
            }
            plain(which, args)
        }
    }
}

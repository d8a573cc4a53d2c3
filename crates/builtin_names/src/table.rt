// What a search in the rows finds.

ghost use Rattle.std.specs.Prelude.{◌≡◌, ◌&&◌, eqb, bytes_eq, map};
ghost use Rattle.builtin_names.specs.Names as spec;

use crate::rows::{collection_rows, date_rows, number_rows, platform_rows, text_rows};
use apex_text::Name;
use builtin_table::Builtin;

// A method: its type and its name in small letters, how many arguments it takes, its receiver apart, and which it is.
#[derive(Clone, Copy, Drop)]
pub(crate) struct MethodRow {
    pub kind: &'static str,
    pub name: &'static str,
    pub count: usize,
    pub builtin: Builtin,
}

fn is_asked(row: &MethodRow, kind: &[u8], name: &[u8], count: usize) -> bool
    ensures { result ≡ (bytes_eq row.now.kind.now kind.now && (bytes_eq row.now.name.now name.now && eqb row.now.count count)) }
{
    row.kind.as_bytes() == kind && row.name.as_bytes() == name && row.count == count
}

fn found(rows: &[MethodRow], kind: &[u8], name: &[u8], count: usize) -> Option<Builtin>
    ensures { result ≡ spec.found (map spec.form rows.now) kind.now name.now count }
{
    for row in rows {
        if is_asked(row, kind, name, count) {
            return Some(row.builtin);
        }
    }
    None
}

fn of_texts(kind: &[u8], name: &[u8], count: usize) -> Option<Builtin>
    ensures { result ≡ spec.found spec.text_methods kind.now name.now count }
{
    found(&text_rows(), kind, name, count)
}

fn of_numbers(kind: &[u8], name: &[u8], count: usize) -> Option<Builtin>
    ensures { result ≡ spec.found spec.number_methods kind.now name.now count }
{
    found(&number_rows(), kind, name, count)
}

fn of_dates(kind: &[u8], name: &[u8], count: usize) -> Option<Builtin>
    ensures { result ≡ spec.found spec.date_methods kind.now name.now count }
{
    found(&date_rows(), kind, name, count)
}

fn of_collections(kind: &[u8], name: &[u8], count: usize) -> Option<Builtin>
    ensures { result ≡ spec.found spec.collection_methods kind.now name.now count }
{
    found(&collection_rows(), kind, name, count)
}

fn of_platform(kind: &[u8], name: &[u8], count: usize) -> Option<Builtin>
    ensures { result ≡ spec.found spec.platform_methods kind.now name.now count }
{
    found(&platform_rows(), kind, name, count)
}

fn of_names(kind: &[u8], name: &[u8], count: usize) -> Option<Builtin>
    ensures { result ≡ spec.signature_of kind.now name.now count }
{
    if let Some(builtin) = of_texts(kind, name, count) {
        return Some(builtin);
    }
    if let Some(builtin) = of_numbers(kind, name, count) {
        return Some(builtin);
    }
    if let Some(builtin) = of_dates(kind, name, count) {
        return Some(builtin);
    }
    if let Some(builtin) = of_collections(kind, name, count) {
        return Some(builtin);
    }
    of_platform(kind, name, count)
}

/// The method of a type that has this name and so many arguments, its receiver apart; letter case doesn't count. The
/// methods of records stand under `SObject`, those of exceptions under `Exception`. `None` exactly where the type has no
/// such method.
pub fn signature(type_name: &Name, method: &Name, count: usize) -> Option<Builtin>
    ensures { result ≡ spec.signature_of type_name.now method.now count }
{
    of_names(type_name.bytes(), method.bytes(), count)
}

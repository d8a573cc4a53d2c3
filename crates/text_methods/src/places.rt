// Parts of a text by their places.

ghost use Rattle.std.specs.Prelude.{◌≡◌, ◌<◌, ◌^◌, ℕ, pos, List, length, take, drop, chars, encode_utf8_all, MatchOption};
ghost use Rattle.std.specs.Str.{IsAscii};
ghost use Rattle.text_methods.specs.Texts as spec;

use apex_num::Text;

/// `length`: how many scalars the text has.
pub fn length(text: &str) -> usize
    ensures value { result ≡ length (chars text.now) }
    ensures small { result < 2 ^ 63 }
{
    text.chars().count()
}

// What comes behind so many scalars; nothing where there are fewer.
fn walk_behind(text: &str, n: usize) -> &str
    ensures bytes { result.now ≡ encode_utf8_all (drop n (chars text.now)) }
    ensures scalars { chars result.now ≡ drop n (chars text.now) }
{
    let mut rest = text.chars();
    let mut passed = 0;
    while passed < n {
        match rest.next() {
            None => return "",
            Some(_) => passed += 1,
        }
    }
    rest.as_str()
}

// So many scalars, or all where there are fewer.
fn walk_up_to(text: &str, n: usize) -> &str
    ensures { result.now ≡ encode_utf8_all (take n (chars text.now)) }
{
    let rest = walk_behind(text, n);
    text.split_at(text.len() - rest.len()).0
}

// At most `m` bytes behind the first `n`.
fn cut_bytes(text: &str, n: usize, m: usize) -> &str
    requires { IsAscii text.now }
    ensures { result.now ≡ take m (drop n text.now) }
{
    let rest = text.split_at(text.len().min(n)).1;
    rest.split_at(rest.len().min(m)).0
}

// At most `m` scalars behind the first `n`. Where each is a byte, none is looked at.
fn cut(text: &Text, n: usize, m: usize) -> &str
    ensures { result.now ≡ encode_utf8_all (take m (drop n (chars text.now))) }
{
    if text.is_ascii() {
        cut_bytes(text.as_str(), n, m)
    } else {
        walk_up_to(walk_behind(text.as_str(), n), m)
    }
}

// What comes behind so many scalars; nothing where there are fewer.
pub(crate) fn behind(text: &Text, n: usize) -> &str
    ensures bytes { result.now ≡ encode_utf8_all (drop n (chars text.now)) }
    ensures scalars { chars result.now ≡ drop n (chars text.now) }
{
    cut(text, n, text.bytes().len())
}

// A place in a text; a negative one is 0.
pub(crate) fn place(n: i64) -> usize
    ensures { result ≡ spec.place n }
{
    if n < 0 { 0 } else { n as usize }
}

/// `left`: the first `n` scalars, or all where there are fewer; none where `n` is negative.
pub fn left(text: &Text, n: i64) -> &str
    ensures { result.now ≡ encode_utf8_all (spec.left n (chars text.now)) }
{
    cut(text, 0, place(n))
}

/// `right`: the last `n` scalars, or all where there are fewer; none where `n` is negative.
pub fn right(text: &Text, n: i64) -> &str
    ensures { result.now ≡ encode_utf8_all (spec.right n (chars text.now)) }
{
    behind(text, text.length().saturating_sub(place(n)))
}

/// `mid`: at most `m` scalars from place `n` on; a negative number counts as 0.
pub fn mid(text: &Text, n: i64, m: i64) -> &str
    ensures { result.now ≡ encode_utf8_all (spec.mid n m (chars text.now)) }
{
    cut(text, place(n), place(m))
}

/// `substring`: the scalars from place `n` up to, and without, place `m`. `None` exactly where not 0 <= n <= m <=
/// length.
pub fn part(text: &Text, n: i64, m: i64) -> Option<&str>
    ensures { MatchOption result (spec.part n m (chars text.now) ≡ None) (λ r. (cs : List ℕ) × (spec.part n m (chars text.now) ≡ Some cs) × (r.now ≡ encode_utf8_all cs)) }
{
    if n < 0 || m < n || text.length() < m as usize {
        return None;
    }
    Some(cut(text, n as usize, (m - n) as usize))
}

/// `substring` with one number: the scalars from place `n` on. `None` exactly where not 0 <= n <= length.
pub fn part_from(text: &Text, n: i64) -> Option<&str>
    ensures { MatchOption result (spec.part n (pos (length (chars text.now))) (chars text.now) ≡ None)
        (λ r. (cs : List ℕ) × (spec.part n (pos (length (chars text.now))) (chars text.now) ≡ Some cs) × (r.now ≡ encode_utf8_all cs)) }
{
    part(text, n, text.length() as i64)
}

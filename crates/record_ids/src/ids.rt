// Ids and their parts.

ghost use Rattle.std.specs.Prelude.{◌≡◌, ◌<◌, ◌≤◌, ◌++◌, suc, take, drop, All};
ghost use Rattle.apex_num.specs.Ids.{IsAlphanumeric};
ghost use Rattle.row_meaning.specs.Users.{user_id};
ghost use Rattle.record_ids.specs.Ids as spec;
ghost use Rattle.record_ids.specs.Ids.{IsPrefix, IsUserNumber, most};

use crate::digits::{four, number};
use apex_num::{Id, read_id};

// The Id of a prefix and three groups of digits.
fn joined(prefix: [u8; 3], session: [u8; 4], request: [u8; 4], count: [u8; 4]) -> Id
    requires prefix { All IsAlphanumeric prefix }
    requires session { All IsAlphanumeric session }
    requires request { All IsAlphanumeric request }
    requires count { All IsAlphanumeric count }
    ensures { result ≡ prefix ++ session ++ request ++ count }
{
    let [a, b, c] = prefix;
    let [d, e, f, g] = session;
    let [h, i, j, k] = request;
    let [l, m, n, o] = count;
    match read_id(&[a, b, c, d, e, f, g, h, i, j, k, l, m, n, o]) {
        Some(id) => id,
        None => unreachable!(),
    }
}

/// The Id of a user by its number from 0, below 62^4 - 1: `005`, eight zeros and the number plus one.
pub fn user_id(user: usize) -> Id
    requires { suc user < most }
    ensures { result ≡ user_id user }
{
    joined(*b"005", *b"0000", *b"0000", four(user + 1))
}

/// The number of the user whose Id it is; `None` exactly where it is no user's Id. Numbers go up to 62^4 - 2.
pub fn user_number(id: &Id) -> Option<usize>
    ensures { IsUserNumber id.now result }
{
    let bytes = id.bytes();
    let (front, digits) = bytes.split_at(11);
    if front != b"00500000000".as_slice() {
        return None;
    }
    match number(digits) {
        0 => None,
        next => Some(next - 1),
    }
}

/// The Id that a request makes as its `count`-th one, counted from 1, for an object with this prefix of three letters
/// or digits. Sessions and requests count from 0.
pub fn minted_id(prefix: [u8; 3], session: usize, request: usize, count: usize) -> Id
    requires prefix { IsPrefix prefix }
    requires session { suc session < most }
    requires request { request < most }
    requires count { count < most }
    ensures { result ≡ spec.minted_id prefix session request count }
{
    joined(prefix, four(session + 1), four(request), four(count))
}

// The session digits of an Id.
fn session_of(id: &Id) -> [u8; 4]
    ensures { result ≡ take 4 (drop 3 id.now) }
{
    let [_, _, _, a, b, c, d, _, _, _, _, _, _, _, _] = id.bytes();
    [a, b, c, d]
}

// The request digits of an Id.
fn request_of(id: &Id) -> [u8; 4]
    ensures { result ≡ take 4 (drop 7 id.now) }
{
    let [_, _, _, _, _, _, _, a, b, c, d, _, _, _, _] = id.bytes();
    [a, b, c, d]
}

/// Whether this request of this session made the Id. Both count from 0.
pub fn is_minted_by(session: usize, request: usize, id: &Id) -> bool
    requires session { suc session < most }
    requires request { request < most }
    ensures { result ≡ spec.is_minted_by session request id.now }
{
    session_of(id) == four(session + 1) && request_of(id) == four(request)
}

/// Whether it is an Id of an object with this prefix that no session made: its session digits are `0000`.
pub fn is_seed_id(prefix: &[u8], id: &Id) -> bool
    ensures { result ≡ spec.is_seed_id prefix.now id.now }
{
    let [a, b, c, ..] = id.bytes();
    prefix == [a, b, c].as_slice() && session_of(id) == *b"0000"
}

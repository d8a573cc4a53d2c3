// Ids by hand.

use super::*;
use apex_num::{Id, read_id};
use std::test::Fail;

// The user's number of an Id plus one, and 0 of another.
fn number_of(text: &[u8]) -> usize {
    match read_id(text) {
        Some(id) => match user_number(&id) {
            Some(number) if number < 14_776_335 => number + 1,
            _ => 0,
        },
        None => 0,
    }
}

#[test]
fn users(rt: HostRuntime) -> Result<(), Fail> {
    assert_eq!(rt; user_id(0).bytes(), *b"005000000000001");
    assert_eq!(rt; user_id(9).bytes(), *b"00500000000000A");
    assert_eq!(rt; user_id(61).bytes(), *b"005000000000010");
    assert_eq!(rt; user_id(999_999).bytes(), *b"005000000004C92");
    assert_eq!(rt; number_of(b"005000000000001"), 1);
    assert_eq!(rt; number_of(b"00500000000000z"), 61);
    assert_eq!(rt; number_of(b"005000000000000"), 0);
    assert_eq!(rt; number_of(b"005000000010001"), 0);
    assert_eq!(rt; number_of(b"001000000000001"), 0);
    assert_eq!(rt; number_of(b"00500000000zzzz"), 14_776_335);
    Ok(())
}

// Whether an Id of Accounts is one that no session made, and whether request 0 of session 0 made it.
fn told(text: &[u8]) -> (bool, bool) {
    match read_id(text) {
        Some(id) => (is_seed_id(b"001", &id), is_minted_by(0, 0, &id)),
        None => (false, false),
    }
}

#[test]
fn rows(rt: HostRuntime) -> Result<(), Fail> {
    assert_eq!(rt; minted_id(*b"001", 0, 0, 1).bytes(), *b"001000100000001");
    assert_eq!(rt; minted_id(*b"a0z", 61, 10, 62).bytes(), *b"a0z0010000A0010");
    assert_eq!(rt; told(b"001000000000001"), (true, false));
    assert_eq!(rt; told(b"001000100000001"), (false, true));
    assert_eq!(rt; told(b"001000200000001"), (false, false));
    assert_eq!(rt; told(b"001000100010001"), (false, false));
    assert_eq!(rt; told(b"002000000000001"), (false, false));
    Ok(())
}

// Rows that were worked out by hand from what the Apex Developer Guide says of each method.

use super::*;
use apex_num::{Dec, read_dec};
use std::process::Abort;
use std::test::Fail;

#[test]
fn integers(rt: HostRuntime) -> Result<(), Fail> {
    let rows: [(&str, Option<i32>); 14] = [
        ("0", Some(0)),
        ("-0", Some(0)),
        ("007", Some(7)),
        ("2147483647", Some(2_147_483_647)),
        ("-2147483648", Some(-2_147_483_648)),
        ("2147483648", None),
        ("-2147483649", None),
        ("+5", None),
        ("5L", None),
        ("5.0", None),
        (" 5", None),
        ("--5", None),
        ("-", None),
        ("", None),
    ];
    for (text, value) in rows {
        assert_eq!(rt; read_integer(text), value);
    }
    Ok(())
}

#[test]
fn longs(rt: HostRuntime) -> Result<(), Fail> {
    let rows: [(&str, Option<i64>); 8] = [
        ("5", Some(5)),
        ("-5", Some(-5)),
        ("9223372036854775807", Some(9_223_372_036_854_775_807)),
        ("-9223372036854775808", Some(-9_223_372_036_854_775_808)),
        ("9223372036854775808", None),
        ("00000000000000000000000000000001", Some(1)),
        ("+1", None),
        ("1x", None),
    ];
    for (text, value) in rows {
        assert_eq!(rt; read_long(text), value);
    }
    Ok(())
}

#[test]
fn rests(rt: HostRuntime) -> Result<(), Fail> {
    let rows: [(i64, i64, Option<i64>); 7] = [
        (7, 3, Some(1)),
        (-7, 3, Some(-1)),
        (7, -3, Some(1)),
        (-7, -3, Some(-1)),
        (0, 5, Some(0)),
        (5, 0, None),
        (i64::MIN, -1, Some(0)),
    ];
    for (x, y, rest) in rows {
        assert_eq!(rt; modulo(x, y), rest);
    }
    Ok(())
}

#[test]
fn wraps(rt: HostRuntime) -> Result<(), Fail> {
    let rows: [(i64, i32); 6] = [
        (0, 0),
        (2_147_483_647, 2_147_483_647),
        (2_147_483_648, -2_147_483_648),
        (-2_147_483_649, 2_147_483_647),
        (4_294_967_295, -1),
        (i64::MIN, 0),
    ];
    for (n, low) in rows {
        assert_eq!(rt; wrapped(n), low);
    }
    Ok(())
}

fn decimal(rt: &impl Abort, text: &str) -> Dec {
    read_dec(text.as_bytes()).expect(rt, "a decimal")
}

#[test]
fn whole_numbers(rt: HostRuntime) -> Result<(), Fail> {
    let rows: [(&str, i64, Option<i32>, i64); 10] = [
        ("2.5", 2, Some(2), 2),
        ("3.5", 3, Some(3), 4),
        ("-2.5", -2, Some(-2), -2),
        ("-3.5", -3, Some(-3), -4),
        ("2.500001", 2, Some(2), 3),
        ("-0.999999", 0, Some(0), -1),
        ("0.5", 0, Some(0), 0),
        (
            "2147483647.999999",
            2_147_483_647,
            Some(2_147_483_647),
            2_147_483_648,
        ),
        ("2147483648", 2_147_483_648, None, 2_147_483_648),
        (
            "9999999999999.999999",
            9_999_999_999_999,
            None,
            10_000_000_000_000,
        ),
    ];
    for (text, cut, integer, near) in rows {
        let d = decimal(&rt, text);
        assert_eq!(rt; whole(d), cut);
        assert_eq!(rt; to_integer(d), integer);
        assert_eq!(rt; nearest(d), near);
    }
    Ok(())
}

#[test]
fn scales(rt: HostRuntime) -> Result<(), Fail> {
    let rows: [(&str, usize, &str); 8] = [
        ("1.25", 1, "1.2"),
        ("1.35", 1, "1.4"),
        ("-1.25", 1, "-1.2"),
        ("1.255", 2, "1.26"),
        ("1.123456", 6, "1.123456"),
        ("1.5", 0, "2"),
        ("0.000001", 5, "0"),
        ("123.456789", 3, "123.457"),
    ];
    for (text, places, scaled) in rows {
        assert!(rt; places <= 6);
        let answer = set_scale(decimal(&rt, text), places);
        assert_eq!(rt; answer.ok(), Some(decimal(&rt, scaled)));
    }
    let most = decimal(&rt, "9999999999999.999999");
    assert!(rt; set_scale(most, 5).is_err());
    Ok(())
}

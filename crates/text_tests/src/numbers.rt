//! Numbers, kinds and lists in texts.

use mtapi_values::Kind;
use number_text::*;
use std::test::Fail;

/// Texts that spell no number of u64.
const NO_NUMBERS: [&str; 10] = [
    "",
    "-",
    "-0",
    "-1",
    "+1",
    "00",
    "01",
    "1a",
    " 1",
    "18446744073709551616",
];

#[test]
fn numbers(rt: HostRuntime) -> Result<(), Fail> {
    let alloc = rt.alloc();
    for n in [0u64, 1, 9, 10, 4_294_967_296, u64::MAX] {
        let mut text = Vec::new(alloc);
        push_number(alloc, &mut text, n)?;
        assert_eq!(rt; number(&text), Some(n));
    }
    for text in NO_NUMBERS {
        assert_eq!(rt; number(text.as_bytes()), None, "{text}");
    }
    Ok(())
}

#[test]
fn kinds(rt: HostRuntime) -> Result<(), Fail> {
    for (text, kind) in [
        (b"gcd".as_slice(), Some(Kind::Gcd)),
        (b"Gcd", None),
        (b"", None),
        (b"\xff", None),
    ] {
        assert!(rt; kind_of(text) == kind);
    }
    Ok(())
}

#[test]
fn lists_and_cores(rt: HostRuntime) -> Result<(), Fail> {
    let alloc = rt.alloc();
    let mut text = Vec::new(alloc);
    push_list(alloc, &mut text, &[i64::MIN, -1, 0, i64::MAX])?;
    assert!(rt; text.as_slice() == b"-9223372036854775808,-1,0,9223372036854775807".as_slice());
    assert!(rt; list_of(&text).is_some());
    assert!(rt; list_of(b"1,,2").is_none() && list_of(b"").is_none() && list_of(b"1,2,").is_none());
    let mut cores = Vec::new(alloc);
    push_cores(alloc, &mut cores, 1 << 63 | 5)?;
    assert!(rt; cores.as_slice() == b"0,2,63".as_slice());
    assert_eq!(rt; cores_of(&cores), Some(1 << 63 | 5));
    assert!(rt;
        cores_of(b"1,1").is_none() && cores_of(b"2,1").is_none() && cores_of(b"64").is_none()
    );
    Ok(())
}

use crate::{
    cut_at, push_decimal, push_hex, push_hex_bytes, push_long_decimal, push_short_hex, push_signed,
    push_text,
};
use arrayvec::ArrayVec;

/// A line of all kinds of parts.
#[test]
fn parts_in_their_order(rt: HostRuntime) {
    let mut line = ArrayVec::<u8, 128>::new();
    push_text(&mut line, b"a ");
    push_decimal(&mut line, 4294967295);
    push_text(&mut line, b" ");
    push_long_decimal(&mut line, 18446744073709551615);
    push_text(&mut line, b" ");
    push_signed(&mut line, -7);
    push_text(&mut line, b" ");
    push_short_hex(&mut line, 0x10f0);
    push_text(&mut line, b" ");
    push_short_hex(&mut line, 0);
    push_text(&mut line, b" ");
    push_hex(&mut line, 4, 0x1a2b3);
    push_text(&mut line, b" ");
    push_hex_bytes(&mut line, &[0x0f, 0xa0]);
    let shown: &[u8] = &line;
    assert!(rt; shown == b"a 4294967295 18446744073709551615 -7 0x10f0 0x0 a2b3 0fa0".as_slice());
}

#[test]
fn cuts(rt: HostRuntime) {
    #[rattlefmt::skip]
    const ROWS: [(&str, &str, Option<(&str, &str)>); 6] = [
        // shows                text    before and after the first comma
        ("nothing to cut",      "",     None),
        ("no such byte",        "ab",   None),
        ("the byte alone",      ",",    Some(("", ""))),
        ("at the start",        ",ab",  Some(("", "ab"))),
        ("at the end",          "ab,",  Some(("ab", ""))),
        ("the first of two",    "a,b,", Some(("a", "b,"))),
    ];
    for (shows, text, parts) in ROWS {
        let expected = match parts {
            Some((front, after)) => Some((front.as_bytes(), after.as_bytes())),
            None => None,
        };
        assert!(rt; cut_at(text.as_bytes(), b',') == expected, "{shows}");
    }
}

//! Bytes that no literal can write: control bytes, and bytes that are no UTF-8.
use super::asking::{Raw, ask_raw};
use super::declared::DECLARED;
use std::test::Fail;

/// Questions of such bytes.
const BYTES: [Raw; 33] = [
    Raw::Accept("string", b"\xff\x80", b"\"\xff\x80\""),
    Raw::Accept("string", b"a\x09b", b"\"a\x09b\""),
    Raw::Accept("string", b"\x00", b"\"\x00\""),
    Raw::Accept("(string 2)", b"\xff\x0a", b"\"\xff\x0a\""),
    Raw::Accept("symbol", b"a\x80", b"refused"),
    Raw::Accept("symbol", b"\xff", b"refused"),
    Raw::Accept("symbol", b"a\x09b", b"refused"),
    Raw::Accept("symbol", b"a\x7f", b"refused"),
    Raw::Accept("symbol", b"a\x00", b"refused"),
    Raw::Accept("integer", b"5\x0a", b"refused"),
    Raw::Accept("integer", b"\x095", b"refused"),
    Raw::Accept(
        "(sequence string)",
        b"\x09a,b\x09",
        b"(\"\x09a\" \"b\x09\")",
    ),
    Raw::Accept("(sequence string)", b" \xe9 ,\x80", b"(\"\xe9\" \"\x80\")"),
    Raw::Accept("(sequence string)", b"\"\x00\\\xff\"", b"(\"\x00\xff\")"),
    Raw::Accept("(sequence string)", b"\"a\"\x09", b"refused"),
    Raw::Accept("(sequence string)", b"\x09\"a\"", b"(\"\x09\\\"a\\\"\")"),
    Raw::Accept("(sequence integer)", b"1,\x092", b"refused"),
    Raw::Accept("boolean", b"yes\x00", b"refused"),
    Raw::Accept(r#"(member "x")"#, b"x\x00", b"refused"),
    Raw::Accept("weekday", b"Monday\x0a", b"refused"),
    Raw::Accept("sized", b"\xff\x00", b"2"),
    Raw::Accept("(or integer string)", b"5\x00", b"\"5\x00\""),
    Raw::Accept("(subset a b)", b"a,\x09b", b"refused"),
    Raw::Text(b"\xff", "string", b"\xff"),
    Raw::Text(b"\xff a", "string", b"\"\xff a\""),
    Raw::Text(b"\x09", "string", b"\x09"),
    Raw::Text(b"a\x0ab", "string", b"a\x0ab"),
    Raw::Text(b"\x00", "string", b"\x00"),
    Raw::Text(b"\x7f,\x80", "string", b"\"\x7f,\x80\""),
    Raw::Text(b"\xff", "t", b"\xff"),
    Raw::Text(b"\x01 b", "integer", b"\x01 b"),
    Raw::Text(b"\xff", "joined", b"\xff+ cost 3"),
    Raw::Text(b"\xfe\x00", "weekday", b"\xfe\x00"),
];

#[test]
fn raw_bytes(rt: HostRuntime) -> Result<(), Fail> {
    ask_raw(&rt, DECLARED, &BYTES)
}

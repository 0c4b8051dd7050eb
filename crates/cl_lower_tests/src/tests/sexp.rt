//! Texts and their tokens, as a separate reference gives them.
use Kind::{Close, Int, Open, Quote, Symbol, Text};
use cl_sexp::{Kind, read_forms};
use std::test::Fail;

const READ: [(&[u8], &[(Kind, u32, u32)]); 6] = [
    (b"; end", &[]),
    (
        b"-9223372036854775808 007",
        &[(Int(-9223372036854775808), 0, 20), (Int(7), 21, 24)],
    ),
    (
        b"-0 - +5 -5a",
        &[
            (Int(0), 0, 2),
            (Symbol, 3, 4),
            (Symbol, 5, 7),
            (Symbol, 8, 11),
        ],
    ),
    (
        b"'A ' ;x\n b",
        &[
            (Quote, 0, 1),
            (Symbol, 1, 2),
            (Quote, 3, 4),
            (Symbol, 9, 10),
        ],
    ),
    (
        b"\"\\\\\"a\"\"",
        &[(Text, 0, 4), (Symbol, 4, 5), (Text, 5, 7)],
    ),
    (
        b"a\"b\"c(d)",
        &[
            (Symbol, 0, 1),
            (Text, 1, 4),
            (Symbol, 4, 5),
            (Open, 5, 6),
            (Symbol, 6, 7),
            (Close, 7, 8),
        ],
    ),
];

#[test]
fn reads_tokens(rt: HostRuntime) -> Result<(), Fail> {
    for (text, want) in READ {
        assert!(rt; text.len() <= 1_048_576);
        let tokens = read_forms(rt.alloc(), text)?;
        assert_eq!(rt; tokens.len(), want.len(), "{text:?}");
        for (token, (kind, start, end)) in tokens.iter().zip(want) {
            assert_eq!(rt;
                (token.kind, token.start, token.end),
                (*kind, *start, *end),
                "{text:?}"
            );
        }
    }
    Ok(())
}

// The places of tokens.
use mig_schema::Limit;
use mig_tokens::{Misread, ReadError, placed, tokens_to_end};
use std::test::Fail;

/// A text, and the lines and columns of its tokens and of its end.
const TEXTS: [(&[u8], &[(u32, u32)]); 8] = [
    (b"", &[(1, 1)]),
    (b" \t", &[(1, 3)]),
    (b"a b", &[(1, 1), (1, 3), (1, 4)]),
    (b"a\n b\n", &[(1, 1), (2, 2), (3, 1)]),
    (b"a\rb\r\nc", &[(1, 1), (1, 3), (2, 1), (2, 2)]),
    (
        b"a # \xff\n\"\xc3\xa9\"x",
        &[(1, 1), (2, 1), (2, 5), (2, 6)],
    ),
    (b"a \xc3\xa9 b", &[(1, 1), (1, 3), (1, 7)]),
    (b"-1->2 # end", &[(1, 1), (1, 3), (1, 5), (1, 12)]),
];

#[test]
fn tokens_have_places(rt: HostRuntime) -> Result<(), Fail> {
    for (text, places) in &TEXTS {
        let tokens = tokens_to_end(rt.alloc(), text)?;
        assert_eq!(rt; tokens.len(), places.len(), "at {text:?}");
        for (i, (line, column)) in places.iter().enumerate() {
            let left = places.len().saturating_sub(i);
            let at = Misread::At {
                line: *line,
                column: *column,
            };
            let found = placed(rt.alloc(), text, tokens.as_slice(), ReadError::At { left });
            assert_eq!(rt; found, at, "at {i} of {text:?}");
        }
    }
    Ok(())
}

#[test]
fn limits_have_lines(rt: HostRuntime) -> Result<(), Fail> {
    let text = b"a\nb\n";
    let tokens = tokens_to_end(rt.alloc(), text)?;
    let which = Limit::Tables;
    for (left, line) in [(3, 1), (2, 2), (1, 3)] {
        let error = ReadError::Limit { which, left };
        let found = placed(rt.alloc(), text, tokens.as_slice(), error);
        assert_eq!(rt; found, Misread::Limit { which, line }, "at {left}");
    }
    let out_of = placed(rt.alloc(), text, tokens.as_slice(), ReadError::Memory);
    assert_eq!(rt; out_of, Misread::Memory);
    Ok(())
}

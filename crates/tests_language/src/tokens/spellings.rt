// Texts as tokens.
use mig_tokens::{Token, tokens_to_end};
use std::alloc::{AllocError, Global};
use std::test::Fail;

/// The tokens, each as a letter for its kind, its text and a bar.
fn shown(alloc: Global, text: &[u8]) -> Result<Vec<u8>, AllocError> {
    let mut out = Vec::new(alloc);
    for token in tokens_to_end(alloc, text)? {
        let (kind, bytes) = match &token {
            Token::Word(text) => (b'w', text.as_slice()),
            Token::Int(text) => (b'i', text.as_slice()),
            Token::Text(text) => (b't', text.as_slice()),
            Token::Sign(text) => (b's', text.as_slice()),
            Token::Bad => (b'!', b"".as_slice()),
            Token::End => (b'$', b"".as_slice()),
        };
        out.push(kind)?;
        out.extend_from_slice(bytes)?;
        out.push(b'|')?;
    }
    Ok(out)
}

#[test]
fn tokens_are_the_longest(rt: HostRuntime) -> Result<(), Fail> {
    let cases = [
        ("", "$|"),
        (" \t\r\n# a", "$|"),
        ("a_1 _ A9", "wa_1|w_|wA9|$|"),
        ("a-1 1and ->5 -5", "wa|i-1|i1|wand|s->|i5|i-5|$|"),
        ("007 -0 --1 1-2", "i007|i-0|!|$|"),
        ("<<=<>>==", "s<|s<=|s<>|s>=|s=|$|"),
        (">>= <->", "s>|s>=|s<|s->|$|"),
        ("{}(),;:.->", "s{|s}|s(|s)|s,|s;|s:|s.|s->|$|"),
        ("\ta\r\n b", "wa|wb|$|"),
        ("a ~ b", "wa|!|$|"),
        ("-", "!|$|"),
        ("+1", "!|$|"),
    ];
    for (text, want) in cases {
        let out = shown(rt.alloc(), text.as_bytes())?;
        assert_eq!(rt; out.as_slice(), want.as_bytes(), "at {text}");
    }
    Ok(())
}

#[test]
fn comments_end_at_line_feeds(rt: HostRuntime) -> Result<(), Fail> {
    let cases = [
        (b"a# b\rc\nd #".as_slice(), b"wa|wd|$|".as_slice()),
        (b"# \xff\x00 \" \r\n a", b"wa|$|"),
        (b"##\n#\na#", b"wa|$|"),
        (b"\"# a\" b", b"t# a|wb|$|"),
    ];
    for (text, want) in cases {
        assert_eq!(rt; shown(rt.alloc(), text)?.as_slice(), want, "at {text:?}");
    }
    Ok(())
}

/// Texts between quotes. Where one is broken, its quote is a token that fits nowhere, and nothing behind it is read.
#[test]
fn texts_stand_between_quotes(rt: HostRuntime) -> Result<(), Fail> {
    let cases = [
        (b"\"\"\"a b\"1".as_slice(), b"t|ta b|i1|$|".as_slice()),
        (b"\"\\\"\\\\\\n\"x", b"t\"\\\n|wx|$|"),
        (b"\"\xc3\xa9\"", b"t\xc3\xa9|$|"),
        (b"\"a\r\t\"", b"ta\r\t|$|"),
        (b"a \"b", b"wa|!|$|"),
        (b"\"a\\t\"", b"!|$|"),
        (b"\"a\nb\" c", b"!|$|"),
        (b"\"a\\", b"!|$|"),
        (b"\"a\\\nb\"", b"!|$|"),
        (b"\"\xc3(\" a", b"!|$|"),
        (b"\"\xed\xa0\x80\"", b"!|$|"),
    ];
    for (text, want) in cases {
        assert_eq!(rt; shown(rt.alloc(), text)?.as_slice(), want, "at {text:?}");
    }
    Ok(())
}

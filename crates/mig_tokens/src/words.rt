// The reserved words.
ghost use Rattle.std.specs.Prelude.{◌≡◌};
ghost use Rattle.std.specs.Str.{bytes_eq};
ghost use Rattle.mig_tokens.specs.Words as spec;

/// Whether the word is this text.
pub fn is(word: &[u8], text: &str) -> bool
    ensures { result ≡ bytes_eq word.now text.now }
{
    word == text.as_bytes()
}

/// Whether the word is reserved, so that it is no name.
pub fn is_reserved(word: &[u8]) -> bool
    ensures { result ≡ spec.is_reserved word.now }
{
    is(word, "old")
        || is(word, "new")
        || is(word, "program")
        || is(word, "hints")
        || is(word, "table")
        || is(word, "link")
        || is(word, "update")
        || is(word, "query")
        || is(word, "insert")
        || is(word, "into")
        || is(word, "delete")
        || is(word, "from")
        || is(word, "set")
        || is(word, "in")
        || is(word, "select")
        || is(word, "where")
        || is(word, "join")
        || is(word, "on")
        || is(word, "and")
        || is(word, "or")
        || is(word, "int")
        || is(word, "text")
        || is(word, "key")
        || is(word, "fresh")
        || is(word, "hint")
}

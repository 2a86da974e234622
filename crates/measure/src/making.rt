// Plain jobs of a chosen size: 32 functions, with comments as filling.
use mig_base::{Bytes, Seq};
use std::alloc::{AllocError, Global};

const HEAD: &str =
    "old\ntable user { uid: int, nick: text }\nnew\ntable person { id: int, nick: text }\nprogram\n";

const HINTS: &str = "hints\nhint user.uid -> person.id 100;\nhint user.nick -> person.nick 100;\n";

/// An update, which inserts a row.
fn put_update(text: &mut Bytes, name: &[u8]) -> Result<(), AllocError> {
    text.extend_from_slice(b"update ")?;
    text.extend_from_slice(name)?;
    text.extend_from_slice(
        b"(id: int, nick: text) {\n  insert into user { user.uid = id, user.nick = nick };\n}\n",
    )
}

/// A query, which selects all rows.
fn put_query(text: &mut Bytes, name: &[u8]) -> Result<(), AllocError> {
    text.extend_from_slice(b"query ")?;
    text.extend_from_slice(name)?;
    text.extend_from_slice(b"() {\n  select user.uid, user.nick from user;\n}\n")
}

/// Comments up to this length; none where the text is longer already.
fn fill(text: &mut Bytes, length: usize) -> Result<(), AllocError> {
    let missing = length.saturating_sub(text.len());
    for i in 0..missing {
        let b = if i + 1 == missing || i % 64 == 63 {
            b'\n'
        } else if i % 64 == 0 {
            b'#'
        } else {
            b'x'
        };
        text.push(b)?;
    }
    Ok(())
}

/// A job of so many bytes; a longer one where its functions don't fit in so few.
pub fn job_of(alloc: Global, size: usize) -> Result<Bytes, AllocError> {
    let mut text = Seq::from_slice(alloc, HEAD.as_bytes())?;
    for i in 0u8..16 {
        put_update(&mut text, &[b'u', b'a' + i])?;
        put_query(&mut text, &[b'q', b'a' + i])?;
        fill(&mut text, size / 20 * (i as usize + 1))?;
    }
    text.extend_from_slice(HINTS.as_bytes())?;
    fill(&mut text, size)?;
    Ok(text)
}

// Texts with numbers in them.
use mig_base::Txt;
use mig_printing::{put, put_number};
use std::alloc::AllocError;

/// A text, with a number for each `#`.
pub fn put_with(text: &mut Txt, pattern: &str, n: u32) -> Result<(), AllocError> {
    for (k, part) in pattern.split('#').enumerate() {
        if k > 0 {
            put_number(text, n)?;
        }
        put(text, part)?;
    }
    Ok(())
}

/// The same for each number below one.
pub fn put_each(text: &mut Txt, pattern: &str, count: u32) -> Result<(), AllocError> {
    for n in 0..count {
        put_with(text, pattern, n)?;
    }
    Ok(())
}

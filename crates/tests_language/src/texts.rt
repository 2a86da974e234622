// Jobs from texts that need not be typed.
use mig_grammar::read_tree;
use mig_schema::Job;
use mig_syntax::job_of_tree;
use mig_tokens::Misread;
use std::alloc::{AllocError, Global};

/// The parts, one behind the other.
pub(crate) fn joined(alloc: Global, parts: &[&str]) -> Result<Vec<u8>, AllocError> {
    let mut text = Vec::new(alloc);
    for part in parts {
        text.extend_from_slice(part.as_bytes())?;
    }
    Ok(text)
}

/// The job that the parts of a text say. A name that nothing has is the number 4294967295, and no typing rule is tested.
pub(crate) fn untyped(alloc: Global, parts: &[&str]) -> Result<Job, Misread> {
    let text = joined(alloc, parts)?;
    if 1 << 31 <= text.len() {
        return Err(Misread::Memory);
    }
    let tree = read_tree(alloc, text.as_slice())?;
    let job = job_of_tree(alloc, &tree)?;
    Ok(job)
}

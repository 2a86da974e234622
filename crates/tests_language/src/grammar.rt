// Texts that are read, and the places of those that are refused.
use mig_grammar::{JobTree, read_functions, read_tree};
use mig_tokens::Misread;
use std::alloc::{AllocError, Global};

mod fronts;
mod limits;
mod refusals;
mod trees;

/// The line and column behind these bytes.
fn place_behind(front: &[u8]) -> (u32, u32) {
    let mut line: u32 = 1;
    let mut column: u32 = 1;
    for b in front {
        if *b == b'\n' {
            line = line.saturating_add(1);
            column = 1;
        } else {
            column = column.saturating_add(1);
        }
    }
    (line, column)
}

/// The tree of a text, which is short.
fn tree_of(alloc: Global, text: &[u8]) -> Result<JobTree, Misread> {
    if text.len() < 1 << 31 {
        read_tree(alloc, text)
    } else {
        Err(Misread::Memory)
    }
}

/// Why the text of a job is refused, or none.
fn fault_of(alloc: Global, text: &[u8]) -> Option<Misread> {
    tree_of(alloc, text).err()
}

/// Why the text of functions is refused, or none.
fn functions_fault_of(alloc: Global, text: &[u8]) -> Option<Misread> {
    if text.len() < 1 << 31 {
        read_functions(alloc, text).err()
    } else {
        Some(Misread::Memory)
    }
}

/// The text without its marks `^`, and the refusal at the first of them.
fn unmarked(alloc: Global, marked: &[u8]) -> Result<(Vec<u8>, Option<Misread>), AllocError> {
    let mut text = Vec::new(alloc);
    let mut fault = None;
    for b in marked {
        if *b != b'^' {
            text.push(*b)?;
        } else if fault.is_none() {
            let (line, column) = place_behind(text.as_slice());
            fault = Some(Misread::At { line, column });
        }
    }
    Ok((text, fault))
}

/// The head, so many pieces, and the tail.
fn repeated(alloc: Global, parts: [&str; 3], n: usize) -> Result<Vec<u8>, AllocError> {
    let mut out = Vec::from_slice(alloc, parts[0].as_bytes())?;
    for _ in 0..n {
        out.extend_from_slice(parts[1].as_bytes())?;
    }
    out.extend_from_slice(parts[2].as_bytes())?;
    Ok(out)
}

//! The program `desk`: the desk over the system's files and streams, and a store in memory.
#![tactic(auto)]

use mig_base::{Seq, Word};
use mig_cli::desk;
use mig_io::{RealFiles, RealSink, emit};
use mig_messages::{Status, no_memory};
use mig_storage::VecStore;
use std::alloc::{AllocError, Global};
use std::env::{Env, FillError};
use std::io;
use std::process::ExitCode;
use std::rt::Runtime;

/// The word at a place of the command line, of any bytes; none where the words have come to their end. A word that is
/// longer than the room is asked for again with twice the room.
fn word_at<R: Env>(alloc: Global, rt: &R, place: usize) -> Result<Option<Word>, AllocError> {
    let mut room = Vec::new(alloc);
    for doubled in 8..usize::BITS {
        room.resize(1usize << doubled, 0u8)?;
        match rt.arg(place, &mut room) {
            Ok(len) => return Ok(Some(Seq::from_slice(alloc, &room[..len])?)),
            Err(FillError::NotPresent) => return Ok(None),
            Err(FillError::TooLong) => {}
        }
    }
    Err(AllocError)
}

/// The words of the command line, without the program's name.
fn words_of<R: Env>(alloc: Global, rt: &R) -> Result<Vec<Word>, AllocError> {
    let mut words = Vec::new(alloc);
    for place in 1..usize::MAX {
        match word_at(alloc, rt, place)? {
            Some(word) => words.push(word)?,
            None => break,
        }
    }
    Ok(words)
}

fn main(rt: HostRuntime) -> io::Result<ExitCode> {
    let mut out = RealSink::new(rt.stdout());
    let mut err = RealSink::new(rt.stderr());
    let status = match words_of(rt.alloc(), &rt) {
        Ok(words) => {
            let mut files = RealFiles::new(rt.clone()?);
            let mut store = VecStore::new(rt.alloc());
            desk(
                rt.alloc(),
                words.as_slice(),
                &mut files,
                &mut out,
                &mut err,
                &mut store,
            )
        }
        Err(_) => match emit(&mut err, no_memory().as_bytes()) {
            Ok(()) => Status::Memory.number(),
            Err(_) => Status::Sink.number(),
        },
    };
    Ok(ExitCode::from(status))
}

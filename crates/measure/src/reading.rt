// How long plain jobs take to be read.
use crate::making::job_of;
use mig_base::Bytes;
use mig_syntax::read_job;
use std::alloc::Global;
use std::io;
use std::rt::Runtime;
use std::time::Instant;

/// How many functions the job has that these bytes spell, if they spell one and are no longer than a job may be.
fn functions_read(alloc: Global, bytes: &Bytes) -> Option<usize> {
    if bytes.len() > 262_144 {
        return None;
    }
    match read_job(alloc, bytes.as_slice()) {
        Ok(job) => Some(job.program.functions.len()),
        Err(_) => None,
    }
}

/// Reads a plain job of so many bytes so many times.
pub fn time<R: Runtime + Alloc<A = Global>>(rt: &R, size: u32, times: u32) -> io::Result<()> {
    let bytes = job_of(rt.alloc(), size as usize)?;
    let start = Instant::now(rt)?;
    let mut functions = None;
    for _ in 0..times {
        functions = functions_read(rt.alloc(), &bytes);
    }
    let spent = start.elapsed(rt)?.as_micros();
    match functions {
        Some(count) => println!(rt;
            "{} bytes: {count} functions, read {times} times",
            bytes.len()
        )?,
        None => println!(rt; "{} bytes: no job", bytes.len())?,
    }
    eprintln!(rt; "{spent} microseconds in all")
}

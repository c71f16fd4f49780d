//! Stored jobs.

use cob_program_job::job;
use cob_records::{ReadSource, WriteSink};
use std::rt::Files;
use std::{fs, io};

/// Does the job of one file, and answers its status.
fn status_of<R: AllocGlobal + Files + Print>(rt: &R, name: &str) -> io::Result<u8> {
    let path = format!(in rt.alloc(); "{name}.job")?;
    let file = fs::open(rt, path.as_str())?;
    let mut sink = WriteSink::new(io::writer(rt));
    Ok(job(rt.alloc(), &mut ReadSource::new(file), &mut sink))
}

/// Prints the name of a job, what it prints, and its status.
pub(crate) fn print_job<R: AllocGlobal + Files + Print>(rt: &R, name: &str) -> io::Result<()> {
    println!(rt; "== {name}")?;
    let status = status_of(rt, name)?;
    println!(rt; "status {status}")
}

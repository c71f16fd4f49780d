//! Draws jobs, each from its number alone, and has each public call that takes memory do its part of each.
//!
//! [`print_sweep`] prints a line, of which 50 tell of a thousand jobs. A line tells of twenty: in how many each call gave what was asked, how many
//! records came, and a sum over all bytes that were written. Where a call refuses, it prints the job's number and the call, and draws
//! and does the job again. At another word it reads a paragraph as long as one may be, of MOVE CORRESPONDING alone, and one of a byte more.
//!
//! What must be printed stands in `stdout` of `cob_test_jobs`. It comes from a program of its own, `tools/sweep_oracle`, which draws the same jobs and works
//! them by the rules.
//!
//! A job's random numbers are the states of a linear congruential generator of 64 bits: the first state is the job's number, the next one
//! is 6364136223846793005 times the state before plus 1442695040888963407, modulo 2 to the 64, and a number below n is the state that
//! comes next without its 33 lowest bits, modulo n. What is drawn, and in which order, is said where it is drawn:
//!
//! - the style of the names, the levels and the records (`style`);
//! - the forms of both sides (`job`);
//! - the entries of the input record, to depth 4: items from a table of clauses, groups, tables, tables that vary with their counts before
//!   them, redefinitions (`entries`);
//! - the output record: the same names in another order, with clauses that the sender can be moved to, and a statement for each of them,
//!   or a loop over the elements of a table of a fixed size (`receivers`, `statements`);
//! - one to three records (`values`).
//!
//! A sum is taken over bytes in their order: each makes of the sum 1099511628211 times itself, and adds itself, modulo 2 to the 64.
#![tactic(auto)]

mod calls;
mod draw;
mod entries;
mod figures;
mod job;
mod longest;
mod receivers;
mod rows;
mod statements;
mod style;
mod values;

use crate::calls::{Refused, do_job};
use crate::figures::Figures;
use crate::job::SweepJob;
use crate::longest::moves_of;
use crate::rows::Tables;
use std::alloc::Global;
use std::rt::Files;
use std::{fs, io};

/// How many jobs a line tells of.
const JOBS_A_LINE: u64 = 20;
/// How many bytes one call writes at most.
const ROOM: usize = 100_000;

/// How many bytes a paragraph has at most.
const MOST_BYTES: usize = 1_000_000;

/// Draws a job, does it, and adds to the figures.
fn draw_and_do(
    alloc: Global,
    tables: Tables<'_>,
    number: u64,
    room: &mut [u8],
    figures: &mut Figures,
) -> Result<(), Refused> {
    let job = SweepJob::draw(alloc, tables, number)?;
    do_job(alloc, &job, room, figures)
}

/// Draws a job and does it, and adds to the figures. Where a call refuses, it prints which, and begins again.
fn try_job<R: AllocGlobal + Print>(
    rt: &R,
    tables: Tables<'_>,
    number: u64,
    room: &mut [u8],
    figures: &mut Figures,
) -> io::Result<()> {
    let before = *figures;
    if let Err(refused) = draw_and_do(rt.alloc(), tables, number, room, figures) {
        println!(rt; "job {number}: {} refused", refused.call)?;
        *figures = before;
        if draw_and_do(rt.alloc(), tables, number, room, figures).is_err() {
            *figures = before;
        }
    }
    Ok(())
}

/// Does the jobs of a line, and prints it.
fn try_line<R: AllocGlobal + Print>(
    rt: &R,
    tables: Tables<'_>,
    line: u64,
    room: &mut [u8],
) -> io::Result<()> {
    let mut figures = Figures::new();
    let last = line.saturating_mul(JOBS_A_LINE);
    let before = last.saturating_sub(JOBS_A_LINE);
    for place in 0..JOBS_A_LINE {
        let number = before.saturating_add(place + 1);
        try_job(rt, tables, number, room, &mut figures)?;
    }
    let first = before.saturating_add(1);
    let Figures { ok, records, sum } = figures;
    println!(rt; "jobs {first} to {last}: {ok} ok, {records} records, sum {sum}")
}

/// Reads the paragraph of so many bytes, and prints how many single moves it has, or the rule that it breaks.
fn try_paragraph<R: AllocGlobal + Print>(rt: &R, bytes: usize) -> io::Result<()> {
    match moves_of(rt.alloc(), bytes) {
        Ok(moves) => println!(rt; "paragraph of {bytes} bytes: {moves} moves"),
        Err(fault) => println!(rt; "paragraph of {bytes} bytes: {fault}"),
    }
}

/// Does what a word asks for.
fn try_word<R: AllocGlobal + Print>(
    rt: &R,
    tables: Tables<'_>,
    word: &str,
    room: &mut [u8],
) -> io::Result<()> {
    match word.parse::<u64>() {
        Ok(line) => try_line(rt, tables, line, room),
        Err(_) => {
            try_paragraph(rt, MOST_BYTES)?;
            try_paragraph(rt, MOST_BYTES + 1)
        }
    }
}

/// The text of a table.
fn table_of<R: AllocGlobal + Files>(rt: &R, folder: &str, table: &str) -> io::Result<String> {
    let path = format!(in rt.alloc(); "{folder}/{table}.rows")?;
    fs::read_to_string(rt, path.as_str())
}

/// Prints what the word asks for, which is the number of a line or any other: its jobs are drawn from the tables `items` and `counts` of a folder.
///
/// # Errors
/// What stops a table from being read or a line from being printed; want of memory for the tables.
pub fn print_sweep<R: AllocGlobal + Files + Print>(
    rt: &R,
    folder: &str,
    word: &str,
) -> io::Result<()> {
    let items = table_of(rt, folder, "items")?;
    let counts = table_of(rt, folder, "counts")?;
    let tables = Tables {
        items: items.trim_end(),
        counts: counts.trim_end(),
    };
    let mut room = vec![in rt.alloc(); 0u8; ROOM]?;
    try_word(rt, tables, word, &mut room)
}

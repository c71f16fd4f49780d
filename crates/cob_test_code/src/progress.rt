//! What a source tells of its progress, over a clock that jumps.
use cob_records::{Form, MemSource, Progress, Source, Telling, next_record};
use std::alloc::Global;
use std::cell::Cell;
use std::fmt::Display;
use std::io;
use std::io::{Eprint, ErrorKind};
use std::rt::Clock;
use std::time::Duration;

/// A clock that shows these seconds one after the other and then fails, and a standard error that is kept.
#[derive(Drop)]
struct Watch<'a> {
    seconds: Cell<&'a [u64]>,
    told: Cell<Vec<u8>>,
    alloc: Global,
}

impl Clock for Watch<'_> {
    fn monotonic(&self) -> io::Result<Duration> {
        match self.seconds.get().split_first() {
            Some((now, later)) => {
                self.seconds.set(later);
                Ok(Duration::from_secs(*now))
            }
            None => Err(io::Error::from(ErrorKind::Unsupported)),
        }
    }

    fn since_1970(&self) -> io::Result<Duration> {
        self.monotonic()
    }
}

impl Watch<'_> {
    fn keep<D: Display + Drop>(&self, value: D, end: &str) -> io::Result<()> {
        let text = format!(in self.alloc; "{value}{end}")?;
        let mut told = self.told.replace(Vec::new(self.alloc));
        let added = told.extend_from_slice(text.as_bytes());
        self.told.set(told);
        added?;
        Ok(())
    }
}

impl Eprint for Watch<'_> {
    fn eprint<D: Display + Drop>(&self, value: D) -> io::Result<()> {
        self.keep(value, "")
    }

    fn eprintln<D: Display + Drop>(&self, value: D) -> io::Result<()> {
        self.keep(value, "\n")
    }
}

/// Reads nine records of one byte, whatever the answers are.
fn read_nine<S: Source>(source: &mut S) {
    let mut slot = [0u8; 1];
    for _ in 0..9 {
        let _ = next_record(source, Form::Fixed, 1, &mut slot);
    }
}

/// What is told of eight records of one byte.
fn told_of(alloc: Global, seconds: &[u64], telling: Telling) -> Vec<u8> {
    let watch = Watch {
        seconds: Cell::new(seconds),
        told: Cell::new(Vec::new(alloc)),
        alloc,
    };
    let mut source = Progress::new(MemSource::new(b"ABCDEFGH"), &watch, Form::Fixed, 1, telling);
    read_nine(&mut source);
    source.finish();
    watch.told.into_inner()
}

/// A second has to go by; where the clock goes back it is counted anew from there; a clock that fails tells nothing.
#[test]
fn clock_jumps(rt: HostRuntime) {
    let telling = Telling {
        size: Some(8),
        rewrites: false,
    };
    let told = told_of(rt.alloc(), &[10, 20, 20, 5, 5, 6, 100], telling);
    let wanted =
        "2 records, 2 bytes, 25 %, 30 s left\n6 records, 6 bytes, 75 %, 0 s left\n7 records, 7 bytes, 87 %, 12 s left\n";
    assert_eq!(rt; told.as_slice(), wanted.as_bytes());
}

/// On a terminal a line is written over the one before, and the last one is ended.
#[test]
fn line_is_written_over(rt: HostRuntime) {
    let telling = Telling {
        size: None,
        rewrites: true,
    };
    let told = told_of(rt.alloc(), &[1, 2, 3], telling);
    let wanted = "\r2 records, 2 bytes            \r3 records, 3 bytes            \n";
    assert_eq!(rt; told.as_slice(), wanted.as_bytes());
}

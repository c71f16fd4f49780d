ghost use Rattle.std.specs.Prelude.{◌≡◌, ℕ, ◌-◌, ◌*◌, ◌/◌, ◌<◌, min};
ghost use Rattle.cob_records.specs.Progress.{ahead_of, percent_of, seconds_left};

use std::fmt;

/// What is told of a stream that passes: how many records and bytes have passed, and what is ahead where that can be known.
#[derive(Clone, Copy)]
pub(crate) struct Report {
    pub(crate) records: u64,
    pub(crate) bytes: u64,
    pub(crate) ahead: Option<Forecast>,
}

/// How many percent of a stream have passed, and how many seconds the rest takes where it passes as fast.
#[derive(Clone, Copy)]
pub(crate) struct Forecast {
    percent: u64,
    seconds: u128,
}

// How many percent of the size these bytes are, and never more than all.
fn percent(bytes: u64, size: u64) -> u64
    requires { 0 < size }
    ensures { result ≡ percent_of bytes size }
{
    (u128::from(bytes) * 100 / u128::from(size)).min(100) as u64
}

// How many seconds the rest takes, where the bytes that have passed took so many.
fn seconds(elapsed: u64, bytes: u64, size: u64) -> u128
    requires { 0 < bytes }
    ensures { result ≡ seconds_left elapsed bytes size }
{
    u128::from(elapsed) * u128::from(size.saturating_sub(bytes)) / u128::from(bytes)
}

/// What is ahead behind so many bytes, where the stream has this size and so many seconds have gone by. Before the first byte, and
/// of a stream whose size is not known, nothing is.
pub(crate) fn what_is_ahead(size: Option<u64>, elapsed: u64, bytes: u64) -> Option<Forecast>
    ensures { result ≡ ahead_of size elapsed bytes }
{
    match size {
        Some(size) if size > 0 && bytes > 0 => Some(Forecast {
            percent: percent(bytes, size),
            seconds: seconds(elapsed, bytes, size),
        }),
        _ => None,
    }
}

impl fmt::Display for Report {
    fn fmt<W: fmt::Write>(&self, f: &mut fmt::Formatter<W>) -> fmt::Result {
        write!(f, "{} records, {} bytes", self.records, self.bytes)?;
        match self.ahead {
            Some(Forecast { percent, seconds }) => write!(f, ", {percent} %, {seconds} s left"),
            None => Ok(()),
        }
    }
}

//! Tests of `cob_convert` and `cob_move` that need code: ends that fail in mid-stream, texts of the greatest length, and requests for memory
//! that are refused. Nothing stands on this crate, so that no crate is proved again for a test of theirs. What jobs print, `cob_test_jobs` shows;
//! what paragraphs come to, `cob_test_moves`.
#![tactic(auto)]

#[cfg(test)]
mod aside;
#[cfg(test)]
mod blocks;
#[cfg(test)]
mod jobs;
#[cfg(test)]
mod memory;
#[cfg(test)]
mod paragraphs;
#[cfg(test)]
mod runs;
#[cfg(test)]
mod trials;

//! The program `cobconv`: it reads the words that it is called with, and does what they ask for.
#![tactic(auto)]

use cob_convert::Status;
use cob_program_commands::{answer, refuse};
use cob_program_line::LineFault;
use cob_program_runtime::{LimitedRuntime, take_closed};
use std::env;
use std::io::ErrorKind;
use std::process::ExitCode;

/// The words after the program's name.
fn words(rt: &HostRuntime) -> Result<Vec<String>, LineFault> {
    match env::args(rt) {
        Ok(words) => Ok(words.skip(1).collect(rt.alloc())?),
        Err(error) if error.kind() == ErrorKind::OutOfMemory => Err(LineFault::Memory),
        Err(_) => Err(LineFault::NotText),
    }
}

/// Does what the words ask for, and answers the status. No file is written past the limit that the system has for its size.
fn run(rt: &HostRuntime) -> u8 {
    let limited = LimitedRuntime::new(rt);
    match words(rt) {
        Ok(words) => answer(&limited, words.as_slice()),
        Err(fault) => refuse(&limited, &fault),
    }
}

/// Does so with something in the place of each standard stream that is closed, so that no file that is opened is taken for it.
fn run_among_streams(rt: &HostRuntime) -> u8 {
    match take_closed(rt) {
        Ok(_stand_ins) => run(rt),
        Err(_) => {
            let _ = eprintln!(rt; "cannot open /");
            Status::Device.code()
        }
    }
}

fn main(rt: HostRuntime) -> ExitCode {
    ExitCode::from(run_among_streams(&rt))
}

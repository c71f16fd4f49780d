use crate::completion::push_completion;
use crate::page::push_pages;
use clap::Command;
use cob_program_options::program;
use std::alloc::{AllocError, Global};

/// What is made of the definition of the command.
#[derive(Clone, Copy)]
enum Generated {
    Completion,
    Pages,
}

/// What is asked for of a program with these commands.
fn text_for(alloc: Global, program: &Command<'_>, asked: Generated) -> Result<String, AllocError> {
    let mut text = String::new(alloc);
    match asked {
        Generated::Completion => push_completion(alloc, &mut text, program)?,
        Generated::Pages => push_pages(alloc, &mut text, program)?,
    }
    Ok(text)
}

// Neither text tells a version.
const NO_VERSION: &str = "";

/// What is asked for of the program.
fn text_of(alloc: Global, asked: Generated) -> Result<String, AllocError> {
    match program(alloc, NO_VERSION) {
        Ok(program) => text_for(alloc, &program, asked),
        Err(fault) => Err(fault),
    }
}

/// What bash needs to complete the program's command lines.
///
/// # Errors
///
/// Want of memory.
pub fn completion_of(alloc: Global) -> Result<String, AllocError> {
    text_of(alloc, Generated::Completion)
}

/// The program's manual pages, one behind another, each of which begins with a line `.TH`.
///
/// # Errors
///
/// Want of memory.
pub fn pages_of(alloc: Global) -> Result<String, AllocError> {
    text_of(alloc, Generated::Pages)
}

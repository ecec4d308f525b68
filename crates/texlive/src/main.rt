//! The program: it makes the real devices, calls the top call over them and ends with its status.
#![tactic(auto)]

mod devices;
mod own;
mod standard;
mod told;

use crate::devices::command;
use crate::own::answer;
use crate::standard::Standard;
use std::fs::File;
use std::io::{ErrorKind, Input, Write};
use std::process::ExitCode;
use std::rt::{Env, Files};
use std::thread::Threads;
use std::{env, io};

// Arguments that are no text.
const NO_TEXT: &[u8] = b"tlmgr: BadWords at=0 kind=Root\n";

// The statuses that the program itself ends with; those of a command are its ending's.
pub(crate) const DONE: u8 = 0;

const FAULTY_LINE: u8 = 2;

const FAULT: u8 = 3;

const NO_MEMORY: u8 = 4;

fn main(rt: HostRuntime) -> ExitCode {
    ExitCode::from(run(&rt))
}

// Runs the program, and gives its status.
fn run<R>(rt: &R) -> u8
where
    R: Env + Files<File = File> + Input + Print + Eprint + AllocGlobal + Threads + Sync,
{
    let _standard = Standard::fill(rt, rt.alloc());
    match words(rt) {
        Ok(words) => match answer(rt, &words) {
            Some(status) => status,
            None => command(rt, &words),
        },
        Err(error) if error.kind() == ErrorKind::InvalidData => refuse_arguments(rt),
        Err(_) => want_of_memory(rt),
    }
}

// The program's words, as bytes.
fn words<R: Env + AllocGlobal>(rt: &R) -> io::Result<Vec<Vec<u8>>> {
    let mut words = Vec::new(rt.alloc());
    for word in env::args(rt)?.skip(1) {
        words.push(word.into_bytes())?;
    }
    Ok(words)
}

fn refuse_arguments<R: Print + Eprint>(rt: &R) -> u8 {
    let _ = eprintln!(rt; "texlive: an argument is no UTF-8 text");
    print(rt, NO_TEXT, FAULTY_LINE)
}

// Says that no memory is left.
pub(crate) fn want_of_memory(rt: &impl Eprint) -> u8 {
    let _ = eprintln!(rt; "texlive: no memory is left");
    NO_MEMORY
}

// Prints bytes to standard output, and gives the status, or that of a fault where they can't be written.
pub(crate) fn print<R: Print + Eprint>(rt: &R, bytes: &[u8], status: u8) -> u8 {
    let mut output = io::writer(rt);
    match output.write_all(bytes) {
        Ok(()) => status,
        Err(error) => {
            let _ = eprintln!(rt; "texlive: cannot write to standard output: {error}");
            FAULT
        }
    }
}

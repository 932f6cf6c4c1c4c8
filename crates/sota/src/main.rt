//! The program: it hands its words, the files of the system and the standard output to the top
//! call.
#![tactic(auto)]

ghost use Rattle.std.specs.Prelude.{◌≡◌, ◌<◌};

mod file_desk;
mod out_sink;
mod reading;
mod shortage;
mod writing;

use file_desk::FileDesk;
use out_sink::OutSink;
use shortage::is_shortage;
use sota_app::{Status, run};
use sota_edge::{Desk, Sink};
use sota_units::Steps;
use std::alloc::Global;
use std::marker::Brand;
use std::process::ExitCode;
use std::sync::ledger::{Blank, Ledger};
use std::{env, io};

// The exit status where the system does not give the words.
const NO_WORDS: u8 = 7;

/// The words after the program's name.
fn read_words(rt: &HostRuntime) -> io::Result<Vec<String>> {
    Ok(env::args(rt)?.skip(1).collect(rt.alloc())?)
}

/// Makes the top call with a counter of the blank's ledger.
fn run_counted<D: Desk, O: Sink, L: Ledger>(
    alloc: Global,
    words: &[String],
    desk: &mut D,
    out: &mut O,
    blank: Blank,
) -> Status
    requires name { blank.name ≡ L.name }
    requires parts { blank.parts ≡ L.parts }
    requires some { 0 < blank.parts }
{
    let mut pushes = Steps::<L>::new(blank);
    run(alloc, words, desk, out, &mut pushes)
}

/// Makes the top call with a counter of its own.
fn run_over<D: Desk, O: Sink>(
    alloc: Global,
    words: &[String],
    desk: &mut D,
    out: &mut O,
) -> Status {
    run_counted::<D, O, Brand>(alloc, words, desk, out, Blank::new(1))
}

/// Makes the top call over the files and the standard output.
fn run_here(rt: &HostRuntime, words: &[String]) -> Status {
    let mut desk = FileDesk::new(rt);
    let mut out = OutSink::new(io::writer(rt));
    run_over(rt.alloc(), words, &mut desk, &mut out)
}

fn main(rt: HostRuntime) -> ExitCode {
    let code = match read_words(&rt) {
        Ok(words) => run_here(&rt, &words).code(),
        Err(error) if is_shortage(&error) => Status::NoMemory.code(),
        Err(_) => NO_WORDS,
    };
    ExitCode::from(code)
}

#[cfg(test)]
mod run_tests;
#[cfg(test)]
mod test_files;
#[cfg(test)]
mod test_runs;
#[cfg(test)]
mod tests;

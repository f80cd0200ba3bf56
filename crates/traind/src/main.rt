//! `traind`: a railway timetable that stays true while trains run late.
#![tactic(auto)]

use commands::{Status, traind};
use mt_io::{FolderFeed, NoGate, StdSink, StdSource, put};
use std::io::ErrorKind;
use std::process::ExitCode;
use std::{env, io};

/// The words after the program's name.
fn given_words(rt: &HostRuntime) -> io::Result<Vec<String>> {
    let mut words = Vec::new(rt.alloc());
    for word in env::args(rt)?.skip(1) {
        words.push(word)?;
    }
    Ok(words)
}

/// The status where the words could not be taken: they are no text, or there was no memory.
fn status_without_words(error: &io::Error) -> Status {
    if error.kind() == ErrorKind::OutOfMemory {
        Status::OutOfMemory
    } else {
        Status::Usage
    }
}

fn main(rt: HostRuntime) -> ExitCode {
    let mut err = StdSink::build(rt.stderr());
    let words = match given_words(&rt) {
        Ok(words) => words,
        Err(error) => {
            let status = status_without_words(&error);
            let _ = put(&mut err, status.error_line());
            return ExitCode::from(status.number());
        }
    };
    let Ok(files) = rt.clone() else {
        let _ = put(&mut err, Status::OutOfMemory.error_line());
        return ExitCode::from(Status::OutOfMemory.number());
    };
    let mut feed = FolderFeed::build(files, rt.alloc());
    let mut input = StdSource::build(rt.stdin());
    let mut out = StdSink::build(rt.stdout());
    let status = traind(
        &rt,
        rt.alloc(),
        words.as_slice(),
        &mut feed,
        &mut input,
        &mut out,
        &mut err,
        &NoGate,
    );
    ExitCode::from(status.number())
}

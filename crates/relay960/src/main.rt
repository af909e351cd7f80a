//! The program `relay960`: it reads its arguments and does what they ask for.
#![tactic(auto)]

mod failure;
mod journal;
mod program;
mod recorder;
mod report;
mod serving;

use journal::check_journal;
use program::{Course, course_of};
use relay960_words::{status_of_no_text, status_without_memory};
use serving::{serve_run, status_of_end};
use std::env;
use std::io::ErrorKind;
use std::process::ExitCode;

fn main(rt: HostRuntime) -> ExitCode {
    let alloc = rt.alloc();
    let status = match env::args(&rt) {
        Ok(args) => match args.collect::<Vec<String>>(alloc) {
            Ok(words) => match course_of(&rt, alloc, words.as_slice()) {
                Course::Ended(status) => status,
                Course::Serves(service) => status_of_end(&rt, serve_run(&rt, alloc, &service)),
                Course::Checks(path) => check_journal(&rt, alloc, path),
            },
            Err(_) => status_without_memory(&rt),
        },
        Err(error) if error.kind() == ErrorKind::OutOfMemory => status_without_memory(&rt),
        Err(_) => status_of_no_text(&rt, alloc),
    };
    ExitCode::from(status.code())
}

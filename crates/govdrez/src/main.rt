//! Replays a season log: carries out each call of it on a yard, and prints what
//! the call is answered. `govdrez --help` lists the calls.

#![tactic(auto)]

mod help;

use crate::help::print_help;
use log_replay::replay_log;
use std::io::BufReader;
use std::process::ExitCode;
use std::{env, fs, io};

fn main(rt: HostRuntime) -> io::Result<ExitCode> {
    let alloc = rt.alloc();
    let mut words = env::args(&rt)?.skip(1);
    let Some(word) = words.next() else {
        return replay_log(&rt, BufReader::new(alloc, rt.reader())?);
    };
    if words.next().is_some() {
        eprintln!(rt;
            "govdrez takes one file, or none to read standard input; see govdrez --help"
        )?;
        return Ok(ExitCode::FAILURE);
    }
    match word.as_str() {
        "--help" | "-h" => {
            print_help(&rt)?;
            Ok(ExitCode::SUCCESS)
        }
        path => replay_file(&rt, path),
    }
}

fn replay_file(rt: &HostRuntime, path: &str) -> io::Result<ExitCode> {
    match fs::open(rt, path) {
        Ok(file) => replay_log(rt, BufReader::new(rt.alloc(), file)?),
        Err(error) => {
            eprintln!(rt; "govdrez: cannot open '{path}': {error}")?;
            Ok(ExitCode::FAILURE)
        }
    }
}

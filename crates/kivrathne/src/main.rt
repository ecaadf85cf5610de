// The program: it plays call files on a bench and prints the answers.
#![tactic(auto)]

mod batch;
mod help;
mod map;
mod play;
mod stop;

use batch::batch;
use help::help;
use play::play_file;
use std::env;
use std::io::Error;
use std::process::ExitCode;
use stop::Stop;

// A command that takes a file.
fn run_on(rt: &HostRuntime, word: &str, path: &str) -> Result<(), Stop> {
    match word {
        "play" => play_file(rt, path),
        "batch" => batch(rt, path),
        _ => Err(Stop::Usage),
    }
}

// A command that takes nothing.
fn run_alone(rt: &HostRuntime, word: &str) -> Result<(), Stop> {
    match word {
        "help" => help(rt),
        _ => Err(Stop::Usage),
    }
}

// The command that the arguments name; with none, the help text.
fn command(rt: &HostRuntime) -> Result<(), Stop> {
    let mut args = env::args(rt)?;
    let _program = args.next();
    let word = args.next();
    let path = args.next();
    match &word {
        Some(word) => match &path {
            Some(path) => run_on(rt, word.as_str(), path.as_str()),
            None => run_alone(rt, word.as_str()),
        },
        None => help(rt),
    }
}

// A command that stops says why on standard error, and the status is then 1.
fn main(rt: HostRuntime) -> Result<ExitCode, Error> {
    match command(&rt) {
        Ok(()) => Ok(ExitCode::SUCCESS),
        Err(stop) => {
            eprintln!(rt; "{stop}")?;
            Ok(ExitCode::FAILURE)
        }
    }
}

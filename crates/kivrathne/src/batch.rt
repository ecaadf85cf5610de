// Many commands in one run.
use crate::play::play_file;
use crate::stop::Stop;
use std::fs;

fn one(rt: &HostRuntime, line: &str) -> Result<(), Stop> {
    match line.split_once(' ') {
        Some(("play", path)) => play_file(rt, path),
        _ => Err(Stop::Usage),
    }
}

// One command a line. An error is printed as a line, and the next command follows.
pub(crate) fn batch(rt: &HostRuntime, path: &str) -> Result<(), Stop> {
    let text = fs::read_to_string(rt, path)?;
    for line in text.as_str().lines() {
        if line.is_empty() || line.starts_with('#') {
            continue;
        }
        println!(rt; "> {line}")?;
        if let Err(stop) = one(rt, line) {
            println!(rt; "stopped: {stop}")?;
        }
    }
    Ok(())
}

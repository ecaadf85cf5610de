// Playing a call file.
use crate::map::show_plan;
use crate::stop::Stop;
use callfile::{Command, Fault, LatticeName, read_line};
use layout::{Plan, Refusal};
use std::fs;
use std::io::{Read, Write};

// A bench as the lines before have left it.
#[derive(Drop)]
struct Player {
    lattice: LatticeName,
    plan: Plan,
    // whether `open` was read: no line may follow it, so there is nothing more to hold
    open: bool,
}

// A line of the file, with its number from 1 on.
#[derive(Clone, Copy)]
struct Line<'a> {
    number: usize,
    text: &'a [u8],
}

fn answer_line(rt: &HostRuntime, line: Line<'_>, answer: Result<(), Refusal>) -> Result<(), Stop> {
    let number = line.number;
    print!(rt; "{number}: ")?;
    rt.stdout().write_all(line.text)?;
    match answer {
        Ok(()) => println!(rt; " -> ok")?,
        Err(refusal) => {
            let number = refusal.number();
            println!(rt; " -> refused {number}: {refusal}")?;
        }
    }
    Ok(())
}

impl Player {
    fn new() -> Self {
        Player {
            lattice: LatticeName::Compartments,
            plan: Plan::new(),
            open: false,
        }
    }

    // One command of the plan, with its answer printed.
    fn obey(&mut self, rt: &HostRuntime, line: Line<'_>, command: Command) -> Result<(), Stop> {
        if self.open {
            return Err(Stop::Line(line.number, Fault::WrongState));
        }
        match command {
            Command::Lattice(name) => {
                self.lattice = name;
                Ok(())
            }
            Command::Vendors(count) => answer_line(rt, line, self.plan.set_vendors(count)),
            Command::Table(declared) => {
                let answer = self.plan.declare(
                    declared.row,
                    declared.columns.as_slice(),
                    declared.pairs.as_slice(),
                );
                answer_line(rt, line, answer)
            }
            Command::Open => {
                self.open = true;
                answer_line(rt, line, Ok(()))?;
                show_plan(rt, &self.plan)
            }
        }
    }
}

// Plays each line of a text; one that cannot be read ends the play.
fn play_text(rt: &HostRuntime, text: &[u8]) -> Result<(), Stop> {
    let mut player = Player::new();
    for (at, text) in text.split(|byte| *byte == b'\n').enumerate() {
        let line = Line {
            number: at + 1,
            text,
        };
        match read_line(rt.alloc(), text) {
            Ok(Some(command)) => player.obey(rt, line, command)?,
            Ok(None) => {}
            Err(fault) => return Err(Stop::Line(line.number, fault)),
        }
    }
    Ok(())
}

// Plays a file, or standard input under the name "-".
pub(crate) fn play_file(rt: &HostRuntime, path: &str) -> Result<(), Stop> {
    if path == "-" {
        let mut text = Vec::new(rt.alloc());
        rt.stdin().read_to_end(&mut text)?;
        play_text(rt, text.as_slice())
    } else {
        let text = fs::read(rt, path)?;
        play_text(rt, text.as_slice())
    }
}

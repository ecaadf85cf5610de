use callfile::Fault;
use std::alloc::AllocError;
use std::{fmt, io};

// Why the program stops before the end of its input.
#[derive(Drop)]
pub(crate) enum Stop {
    // A line of a call file cannot be read.
    Line(usize, Fault),
    Usage,
    Input(io::Error),
}

impl From<io::Error> for Stop {
    fn from(error: io::Error) -> Stop {
        Stop::Input(error)
    }
}

impl From<AllocError> for Stop {
    fn from(error: AllocError) -> Stop {
        Stop::Input(io::Error::from(error))
    }
}

impl fmt::Display for Stop {
    fn fmt<W: fmt::Write>(&self, f: &mut fmt::Formatter<W>) -> fmt::Result {
        match self {
            Stop::Line(number, fault) => write!(f, "line {number}: {fault}"),
            Stop::Usage => f.write_str("no such command; `kivrathne help` lists them"),
            Stop::Input(error) => write!(f, "{error}"),
        }
    }
}

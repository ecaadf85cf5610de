ghost use Rattle.std.specs.Prelude.{Some};
ghost use Rattle.callfile.specs.Names.{written, Names};

use crate::fault::Fault;
use layout::Pair;
use std::fmt;
use std::str::FromStr;

// Which of the built lattices the bench is over.
#[derive(Clone, Copy, PartialEq, Eq)]
pub enum LatticeName {
    Compartments,
    Contributors,
    Grades,
}

impl fmt::Display for LatticeName {
    ghost output = { λ name. Some (written name) };

    fn fmt<W: fmt::Write>(&self, f: &mut fmt::Formatter<W>) -> fmt::Result {
        f.write_str(match *self {
            LatticeName::Compartments => "compartments",
            LatticeName::Contributors => "contributors",
            LatticeName::Grades => "grades",
        })
    }
}

impl FromStr for LatticeName {
    type Err = Fault;

    ghost from_str_gives = { Names };

    fn from_str(name: &str) -> Result<LatticeName, Fault> {
        match name {
            "compartments" => Ok(LatticeName::Compartments),
            "contributors" => Ok(LatticeName::Contributors),
            "grades" => Ok(LatticeName::Grades),
            _ => Err(Fault::NoLattice),
        }
    }
}

// What a table's line brings.
#[derive(PartialEq, Eq, Drop)]
pub struct Declaration {
    pub row: u32,
    pub columns: Vec<u32>,
    pub pairs: Vec<Pair>,
}

impl fmt::Display for Declaration {
    fn fmt<W: fmt::Write>(&self, f: &mut fmt::Formatter<W>) -> fmt::Result {
        let row = self.row;
        write!(f, "table {row} ")?;
        if self.columns.is_empty() {
            f.write_str("-")?;
        }
        for (at, column) in self.columns.iter().enumerate() {
            if at > 0 {
                f.write_str(",")?;
            }
            write!(f, "{column}")?;
        }
        for pair in self.pairs.iter() {
            let offset = pair.offset;
            let length = pair.length;
            write!(f, " {offset}:{length}")?;
        }
        Ok(())
    }
}

// A line of a call file.
#[derive(PartialEq, Eq, Drop)]
pub enum Command {
    Lattice(LatticeName),
    Vendors(u32),
    Table(Declaration),
    Open,
}

impl fmt::Display for Command {
    fn fmt<W: fmt::Write>(&self, f: &mut fmt::Formatter<W>) -> fmt::Result {
        match self {
            Command::Lattice(name) => write!(f, "lattice {name}"),
            Command::Vendors(count) => write!(f, "vendors {count}"),
            Command::Table(declaration) => write!(f, "{declaration}"),
            Command::Open => f.write_str("open"),
        }
    }
}

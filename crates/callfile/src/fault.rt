ghost use Rattle.std.specs.Prelude.{◌≡◌};
ghost use Rattle.callfile.specs.declared.fault.Fault.TheVariants.{NoMemory, NumberTooLarge};

use std::alloc::{AllocError, AllocFailed};
use std::fmt;
use std::num::TryFromIntError;

// Why a line cannot be read.
#[derive(Clone, Copy, PartialEq, Eq)]
pub enum Fault {
    UnknownWord,
    WordMissing,
    WordLeft,
    NoNumber,
    NumberTooLarge,
    NoPair,
    NoLattice,
    WrongState,
    NoMemory,
}

impl From<AllocError> for Fault {
    ghost from_gives = { λ _ fault. fault ≡ NoMemory };

    fn from(_error: AllocError) -> Fault {
        Fault::NoMemory
    }
}

impl<T: Drop> From<AllocFailed<T>> for Fault {
    ghost from_gives = { λ _ fault. fault ≡ NoMemory };

    fn from(_error: AllocFailed<T>) -> Fault {
        Fault::NoMemory
    }
}

impl From<TryFromIntError> for Fault {
    ghost from_gives = { λ _ fault. fault ≡ NumberTooLarge };

    fn from(_error: TryFromIntError) -> Fault {
        Fault::NumberTooLarge
    }
}

impl fmt::Display for Fault {
    fn fmt<W: fmt::Write>(&self, f: &mut fmt::Formatter<W>) -> fmt::Result {
        f.write_str(match *self {
            Fault::UnknownWord => "the line begins with a word that is no call",
            Fault::WordMissing => "the call wants another word",
            Fault::WordLeft => "the call wants no further word",
            Fault::NoNumber => "a number is wanted: decimal digits, and below 2^64",
            Fault::NumberTooLarge => "the number does not fit",
            Fault::NoPair => "a pair is wanted, as OFFSET:LENGTH",
            Fault::NoLattice => "the lattices are compartments, contributors and grades",
            Fault::WrongState =>
                "the call does not fit the bench as it stands: plan lines come before open",
            Fault::NoMemory => "there is no memory left",
        })
    }
}

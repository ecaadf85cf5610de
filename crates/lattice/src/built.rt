ghost use Rattle.std.specs.Prelude.{◌≡◌, ◌+◌, ◌*◌, ◌^◌};
ghost use Rattle.lattice.specs.Built.{tagged, compartment, compartments, contributors, grades};
ghost use Rattle.lattice.specs.CompartmentLaws.{compartments_lawful};
ghost use Rattle.lattice.specs.ContributorLaws.{contributors_lawful};
ghost use Rattle.std.proofs.Common.{rules};

use crate::order::Lattice;

// The families and vendors that have a tag of their own.
fn is_tagged(family: u32, vendor: u32) -> bool
    ensures { result ≡ tagged family vendor }
{
    1 <= family && family <= 3 && vendor <= 31
}

// One compartment for each family and vendor, below a top and above a bottom, and unordered among themselves.
#[derive(Clone, Copy)]
pub struct Compartments;

const COMPARTMENTS_TOP: u64 = 256;

// A label between the bottom and the top.
fn is_compartment(a: u64) -> bool
    ensures { result ≡ compartment a }
{
    64 <= a && a < COMPARTMENTS_TOP && a % 64 < 32
}

impl Lattice for Compartments {
    ghost answers = { λ _. compartments };

    ghost lawful = { λ x. compartments_lawful };

    fn is_label(&self, a: u64) -> bool {
        a == 0 || a == COMPARTMENTS_TOP || is_compartment(a)
    }

    fn below(&self, a: u64, b: u64) -> bool {
        self.is_label(a) && self.is_label(b) && (a == 0 || b == COMPARTMENTS_TOP || a == b)
    }

    fn join(&self, a: u64, b: u64) -> u64 {
        if self.below(a, b) {
            b
        } else if self.below(b, a) {
            a
        } else {
            COMPARTMENTS_TOP
        }
    }

    fn bottom(&self) -> u64 {
        0
    }

    fn top(&self) -> u64 {
        COMPARTMENTS_TOP
    }

    fn tag(&self, family: u32, vendor: u32) -> u64 {
        if is_tagged(family, vendor) {
            64 * u64::from(family) + u64::from(vendor)
        } else {
            0
        }
    }
}

// The sets of vendors that had a part in a value, ordered by inclusion and joined by union.
#[derive(Clone, Copy)]
pub struct Contributors;

// All 32 vendors.
const EVERYBODY: u64 = 4294967295;

impl Lattice for Contributors {
    ghost answers = { λ _. contributors };

    ghost lawful = { λ x. contributors_lawful };

    fn is_label(&self, a: u64) -> bool {
        a <= EVERYBODY
    }

    fn below(&self, a: u64, b: u64) -> bool {
        self.is_label(a) && self.is_label(b) && (a | b) == b
    }

    fn join(&self, a: u64, b: u64) -> u64 {
        if self.is_label(a) && self.is_label(b) {
            a | b
        } else {
            EVERYBODY
        }
    }

    fn bottom(&self) -> u64 {
        0
    }

    fn top(&self) -> u64 {
        EVERYBODY
    }

    fn tag(&self, family: u32, vendor: u32) -> u64 {
        if is_tagged(family, vendor) {
            1 << vendor
        } else {
            0
        }
    }
}

// Sixteen grades in the usual order.
#[derive(Clone, Copy)]
pub struct Grades;

const HIGHEST_GRADE: u64 = 15;

impl Lattice for Grades {
    ghost answers = { λ _. grades };

    ghost lawful = { Prim.search rules };

    fn is_label(&self, a: u64) -> bool {
        a <= HIGHEST_GRADE
    }

    fn below(&self, a: u64, b: u64) -> bool {
        self.is_label(a) && self.is_label(b) && a <= b
    }

    fn join(&self, a: u64, b: u64) -> u64 {
        if self.is_label(a) && self.is_label(b) {
            a.max(b)
        } else {
            HIGHEST_GRADE
        }
    }

    fn bottom(&self) -> u64 {
        0
    }

    fn top(&self) -> u64 {
        HIGHEST_GRADE
    }

    fn tag(&self, family: u32, vendor: u32) -> u64 {
        if is_tagged(family, vendor) {
            5 * u64::from(family)
        } else {
            0
        }
    }
}

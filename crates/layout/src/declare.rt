// The calls that make a plan.
ghost use Rattle.std.specs.Prelude.{◌≡◌, map};
ghost use Rattle.rules.specs.Guards.{after, answer};
ghost use Rattle.rules.specs.Plans.{new_plan, set_vendors, declare, families_above, no_room, wrong_columns, wrong_families, wrong_count};
ghost use Rattle.layout.specs.Pairs.{pair_of};
ghost use Rattle.layout.specs.Tables.{declared};
ghost use Rattle.layout.specs.Plans.{plan_of};

use crate::pair::Pair;
use crate::plan::Plan;
use crate::span::keep_the_rule;
use crate::table::Table;
use inplace::ArrayVec;
use rules::Refusal;

const MOST_VENDORS: u32 = 32;

const MOST_TABLES: usize = 4;

const MOST_COLUMNS: usize = 4;

// The highest family of a row, a column or a tag.
pub const HIGHEST_FAMILY: u32 = 3;

const SLOTS: u32 = 256;

// Whether one of the families is above the highest.
fn any_above(families: &[u32]) -> bool
    ensures { result ≡ families_above families.now }
{
    for family in families {
        if *family > HIGHEST_FAMILY {
            return true;
        }
    }
    false
}

// Whether the columns are none or more than four.
fn are_wrong_columns(columns: &[u32]) -> bool
    ensures { result ≡ wrong_columns columns.now }
{
    columns.len() < 1 || columns.len() > MOST_COLUMNS
}

// Whether a family of a table is above the highest.
fn are_wrong_families(row: u32, columns: &[u32]) -> bool
    ensures { result ≡ wrong_families row columns.now }
{
    row > HIGHEST_FAMILY || any_above(columns)
}

impl Plan {
    // One vendor and no table.
    pub fn new() -> Self
        ensures { plan_of result ≡ new_plan }
    {
        let unused = Table::new(0, &[], &[]);
        Plan {
            vendors: 1,
            tables: ArrayVec::new(unused),
        }
    }

    // Sets the vendor count, before the first table.
    pub fn set_vendors(&mut self, count: u32) -> Result<(), Refusal>
        ensures answer { result ≡ answer (set_vendors (plan_of self.old) count) }
        ensures after { plan_of self.new ≡ after (plan_of self.old) (set_vendors (plan_of self.old) count) }
    {
        if count < 1 || count > MOST_VENDORS {
            return Err(Refusal::VendorCount);
        }
        if self.tables.len() > 0 {
            return Err(Refusal::VendorCountFixed);
        }
        self.vendors = count;
        Ok(())
    }

    // Whether there are four tables already.
    fn has_no_room(&self) -> bool
        ensures { result ≡ no_room (plan_of self.now) }
    {
        self.tables.len() >= MOST_TABLES
    }

    // Whether there is not one pair for each vendor.
    fn miscounts(&self, pairs: &[Pair]) -> bool
        ensures { result ≡ wrong_count (plan_of self.now) (map pair_of pairs.now) }
    {
        pairs.len() != self.vendors as usize
    }

    // Whether a table may be declared, by the first rule that it breaks.
    fn check(&self, row: u32, columns: &[u32], pairs: &[Pair]) -> Result<(), Refusal>
        ensures { result ≡ answer (declare (plan_of self.now) (declared row columns.now pairs.now)) }
    {
        if self.has_no_room() {
            return Err(Refusal::TooManyTables);
        }
        if are_wrong_columns(columns) {
            return Err(Refusal::ColumnCount);
        }
        if are_wrong_families(row, columns) {
            return Err(Refusal::FamilyTooHigh);
        }
        if self.miscounts(pairs) {
            return Err(Refusal::PairCount);
        }
        if !keep_the_rule(pairs, SLOTS) {
            return Err(Refusal::PairRule);
        }
        Ok(())
    }

    // Declares one more table: the family of its rows, the families of its columns, and one pair for each vendor.
    pub fn declare(&mut self, row: u32, columns: &[u32], pairs: &[Pair]) -> Result<(), Refusal>
        ensures answer { result ≡ answer (declare (plan_of self.old) (declared row columns.now pairs.now)) }
        ensures after { plan_of self.new ≡ after (plan_of self.old) (declare (plan_of self.old) (declared row columns.now pairs.now)) }
    {
        self.check(row, columns, pairs)?;
        let _ = self.tables.push(Table::new(row, columns, pairs));
        Ok(())
    }
}

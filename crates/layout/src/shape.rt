// What a plan tells of itself.
ghost use Rattle.std.specs.Prelude.{◌≡◌, map};
ghost use Rattle.layout.specs.Tables.{table_of};
ghost use Rattle.layout.specs.Plans.{plan_of};

use crate::plan::Plan;
use crate::table::Table;

impl Plan {
    pub fn vendors(&self) -> u32
        ensures { result ≡ (plan_of self.now).vendors }
    {
        self.vendors
    }

    // The tables, in the order in which they were declared.
    pub fn tables(&self) -> &[Table]
        ensures { map table_of result.now ≡ (plan_of self.now).tables }
    {
        self.tables.as_slice()
    }
}

use layout::LotId;

// One of the six calls on a live bench, with all that it brings. A post holds its values and an admission its text where
// they lie.
#[derive(Clone, Copy, PartialEq, Eq)]
pub enum Call<'a> {
    // Puts a row in front of a lot.
    Post {
        lot: LotId<u32>,
        values: &'a [u32],
    },
    // Puts a script into a slot.
    Admit {
        slot: u32,
        text: &'a [u8],
    },
    // Runs the script of a slot for a vendor.
    Run {
        slot: u32,
        vendor: u32,
    },
    // Reads a cell; place 0 is the newest row.
    Look {
        clearance: u64,
        lot: LotId<u32>,
        place: u32,
        column: u32,
    },
    // Reads how many rows a lot has, and how many it lost.
    Count {
        clearance: u64,
        lot: LotId<u32>,
    },
    // Reads the steps of the newest run.
    Meter {
        clearance: u64,
    },
}

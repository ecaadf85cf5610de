// A plan as a picture in text.
use crate::stop::Stop;
use layout::{Pair, Plan, Table};

const SIGNS: &[u8; 32] = b"0123456789ABCDEFGHIJKLMNOPQRSTUV";

const FREE: u8 = b'.';

const WIDTH: usize = 64;

// Marks the slots of one lot with its vendor's sign.
fn paint(slots: &mut [u8; 256], lot: &Pair, sign: u8) {
    let lot_slots = slots
        .iter_mut()
        .skip(lot.offset as usize)
        .take(lot.length as usize);
    for slot in lot_slots {
        *slot = sign;
    }
}

fn paint_all(table: &Table) -> [u8; 256] {
    let mut slots = [FREE; 256];
    for (lot, sign) in table.lots().iter().zip(SIGNS.iter()) {
        paint(&mut slots, lot, *sign);
    }
    slots
}

fn show_slots(rt: &HostRuntime, slots: &[u8; 256]) -> Result<(), Stop> {
    for (at, sign) in slots.iter().enumerate() {
        if at % WIDTH == 0 {
            print!(rt; "    {at:>3} ")?;
        }
        let sign = *sign as char;
        print!(rt; "{sign}")?;
        if at % WIDTH == WIDTH - 1 {
            println!(rt; "")?;
        }
    }
    Ok(())
}

fn show_table(rt: &HostRuntime, number: usize, table: &Table) -> Result<(), Stop> {
    let row = table.row();
    print!(rt; "  table {number}: row family {row}, column families")?;
    for column in table.columns() {
        print!(rt; " {column}")?;
    }
    println!(rt; "")?;
    let slots = paint_all(table);
    show_slots(rt, &slots)
}

// Each table with its families and a map of its slots.
pub(crate) fn show_plan(rt: &HostRuntime, plan: &Plan) -> Result<(), Stop> {
    let vendors = plan.vendors();
    println!(rt; "  vendors: {vendors}")?;
    for (number, table) in plan.tables().iter().enumerate() {
        show_table(rt, number, table)?;
    }
    Ok(())
}

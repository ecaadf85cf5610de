// What holds of the lots of every store. Each function carries one statement.
ghost use Rattle.lots.specs.Promises.{RowsFit, WidthsStay, PlanLotsHold};

// No lot holds more rows than its plan has room for.
pub fn lots_keep_to_their_room()
    ensures { RowsFit }
{}

// Rows of one width keep it, whatever is dropped or altered.
pub fn rows_keep_their_width()
    ensures { WidthsStay }
{}

// The store of a plan has the plan's lots, each with the plan's room, and a row enters there as the rules have it.
pub fn lots_are_those_of_the_plan()
    ensures { PlanLotsHold }
{}

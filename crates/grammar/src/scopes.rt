// Theorems about the names in scope, and what kinds of names there are.
ghost use Rattle.grammar.specs.Scopes.{NewestIsFound, OthersStay, FoundNamesAreThere, FreshNamesKeepScopesSound, EveryNameIsFound, LeavingForgets};

// What a name stands for.
#[derive(Clone, Copy)]
pub enum NameKind {
    // It holds a number.
    Variable,
    // It runs over the vendors.
    Index,
    // It goes through the rows of a lot of this table.
    Cursor(usize),
}

// The newest name is found as it was made.
pub fn newest_is_found()
    ensures { NewestIsFound }
{}

// A new name changes what no other name stands for.
pub fn others_stay()
    ensures { OthersStay }
{}

// What is found stands in the scope, at its level and of its kind.
pub fn found_names_are_there()
    ensures { FoundNamesAreThere }
{}

// A name that may be made leaves the names in scope different and at most 16.
pub fn fresh_names_keep_scopes_sound()
    ensures { FreshNamesKeepScopesSound }
{}

// Where the names in scope are different, each is found.
pub fn every_name_is_found()
    ensures { EveryNameIsFound }
{}

// Going back to the number of names before a block forgets the block's names and no other.
pub fn leaving_forgets()
    ensures { LeavingForgets }
{}

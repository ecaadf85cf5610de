use layout::LotId;

// What a name in scope is, with the families and vendors that it names worked out.
#[derive(Clone, Copy)]
pub(crate) enum Name {
    // no name, which is a case of the rules too
    Unknown,
    // a variable at the bottom, and one at the tag of a family and a vendor
    Open,
    Tagged(u32, u32),
    // an index, and the vendor that it stands for
    Turn(u32),
    // a cursor over a lot
    Cursor(LotId<u32>),
}

ghost use Rattle.std.specs.Prelude.{◌≡◌};
ghost use Rattle.lattice.specs.Order.{Order, Laws};

// A lattice of labels. A label is a number, and says how widely something may be seen: what has label a may flow to
// what has label b exactly when a is at or below b. Its answers depend on the question alone.
pub trait Lattice {
    // What it answers.
    ghost answers: { Self → Order };

    // Whether a number is a label.
    fn is_label(&self, a: u64) -> bool
        ensures { result ≡ (answers self.now).label a };

    // Whether a is at or below b; false where one of them is no label.
    fn below(&self, a: u64, b: u64) -> bool
        ensures { result ≡ (answers self.now).below a b };

    // The least label at or above both; the top where one of them is no label.
    fn join(&self, a: u64, b: u64) -> u64
        ensures { result ≡ (answers self.now).join a b };

    fn bottom(&self) -> u64
        ensures { result ≡ (answers self.now).bottom };

    fn top(&self) -> u64
        ensures { result ≡ (answers self.now).top };

    // The label of what a vendor keeps under a family.
    fn tag(&self, family: u32, vendor: u32) -> u64
        ensures { result ≡ (answers self.now).tag family vendor };

    // What it has to show of its answers, and all that it has to show.
    ghost lawful: { (x : Self) → Laws (answers x) };
}

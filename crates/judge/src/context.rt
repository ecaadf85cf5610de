// The context of a statement: the label of what decides whether it is run.
ghost use Rattle.std.specs.Prelude.{◌≡◌};

use lattice::Lattice;

#[derive(Drop)]
pub struct Context {
    pub label: u64,
}

// A context that is raised: its end puts the label back, on every way out of a block.
pub struct Raised<'a> {
    pub(crate) context: &'a mut Context,
    before: u64,
}

impl Drop for Raised<'_> {
    fn drop(self)
        ensures { self.exit.0.now.label ≡ self.entry.before }
    {
        self.context.label = self.before;
        let Raised {
            context: _,
            before: _,
        } = self;
    }
}

// Raises a context by a label, for as long as the guard lives.
pub(crate) fn raise<'a, L: Lattice>(lattice: &L, context: &'a mut Context, label: u64) -> Raised<'a>
    ensures label { result.context.now.label ≡ (L.answers lattice.now).join context.old.label label }
    ensures before { result.before ≡ context.old.label }
    ensures lender { result.context.ghost_name ≡ context.entry.ghost_name }
{
    let before = context.label;
    context.label = lattice.join(before, label);
    Raised { context, before }
}

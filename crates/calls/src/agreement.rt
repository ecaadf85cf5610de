// When two lists of calls agree at a label.
ghost use Rattle.std.specs.Prelude.{◌≡◌, ◌<◌, [], ◌∷◌, map, length, IfSome, MatchOption, Decides};
ghost use Rattle.std.specs.Slice.Iter.{iter_rest};
ghost use Rattle.layout.specs.Plans.{plan_of};
ghost use Rattle.rules.specs.Agreement.{Agree};
ghost use Rattle.rules.specs.Deciding.{seen_cell, same_values, alike, agree};
ghost use Rattle.calls.specs.Meaning.{call_of, seen};

use crate::call::Call;
use crate::hearing::Listener;
use lattice::Lattice;
use layout::LotId;
use std::slice::Iter;

impl<'a, L: Lattice> Listener<'a, L> {
    // Whether the cell of a value in this column is seen at the label.
    fn sees_cell(&self, lot: LotId<u32>, column: usize) -> bool
        ensures { result ≡ seen_cell (L.answers self.now.policy.lattice.now) (plan_of self.now.policy.plan.now) self.now.label lot.table lot.vendor column }
    {
        let plan = self.policy.plan;
        plan.has_lot(lot)
            && column < plan.width(lot.table as usize)
            && self.sees(self.policy.cell_label(lot, column))
    }

    // Whether two posts to one lot bring equally many values, and the same one in each column whose cell is seen.
    fn same_values(&self, lot: LotId<u32>, left: &[u32], right: &[u32]) -> bool
        ensures { result ≡ same_values (L.answers self.now.policy.lattice.now) (plan_of self.now.policy.plan.now) self.now.label lot.table lot.vendor 0 left.now right.now }
    {
        left.len() == right.len()
            && left.iter().zip(right).enumerate().all(|(column, (value, other))| value == other
                || !self.sees_cell(lot, column))
    }

    // Whether two calls may stand beside each other: equal ones, and posts that differ only in values that are not seen.
    fn are_alike(&self, left: &Call, right: &Call) -> bool
        ensures { result ≡ alike (L.answers self.now.policy.lattice.now) (plan_of self.now.policy.plan.now) self.now.label (call_of left.now) (call_of right.now) }
    {
        match (left, right) {
            (
                Call::Post { lot, values },
                Call::Post {
                    lot: its_lot,
                    values: its_values,
                },
            ) => lot == its_lot && self.same_values(*lot, values, its_values),
            _ => left == right,
        }
    }

    // Takes the next call that is not struck out.
    fn next_seen<'s, 'c>(&self, calls: &mut Iter<'s, Call<'c>>) -> Option<&'s Call<'c>>
        ensures gives { MatchOption result (seen (L.answers self.now.policy.lattice.now) (plan_of self.now.policy.plan.now) self.now.label (iter_rest calls.old) ≡ []) (λ call. seen (L.answers self.now.policy.lattice.now) (plan_of self.now.policy.plan.now) self.now.label (iter_rest calls.old) ≡ call_of call.now ∷ seen (L.answers self.now.policy.lattice.now) (plan_of self.now.policy.plan.now) self.now.label (iter_rest calls.new)) }
        ensures nearer { IfSome result (λ _. length (iter_rest calls.new) < length (iter_rest calls.old)) }
    {
        calls.find(|call| !self.is_unseen(call))
    }

    // Whether two lists of calls agree at the label: without the posts that are struck out, they are alike call by call.
    #[tactic(auto, using(crate::proofs::Verdict::decided))]
    pub fn agree(&self, left: &[Call], right: &[Call]) -> bool
        ensures value { result ≡ agree (L.answers self.now.policy.lattice.now) (plan_of self.now.policy.plan.now) self.now.label (map call_of left.now) (map call_of right.now) }
        ensures decides { Decides result (Agree (L.answers self.now.policy.lattice.now) (plan_of self.now.policy.plan.now) self.now.label (map call_of left.now) (map call_of right.now)) }
    {
        let mut ours = left.iter();
        let mut theirs = right.iter();
        while let Some(call) = self.next_seen(&mut ours) {
            match self.next_seen(&mut theirs) {
                Some(other) if self.are_alike(call, other) => {}
                _ => return false,
            }
        }
        self.next_seen(&mut theirs).is_none()
    }
}

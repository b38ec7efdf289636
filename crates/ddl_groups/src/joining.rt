//! Groups of a path that become one.
ghost use Rattle.std.specs.Prelude.{ℕ, ◌<◌, ◌≤◌, Contains, length, slice_index};

/// Takes off the beginnings behind a place: the groups from there on are one.
pub(crate) fn join(heads: &mut Vec<usize>, place: usize)
    requires { (i j : ℕ) → i < j → j < length heads.old.items
        → slice_index heads.old.items i < slice_index heads.old.items j }
    ensures sub { (h : ℕ) → Contains heads.new.items h → Contains heads.old.items h × (h ≤ place) }
    ensures kept { (h : ℕ) → Contains heads.old.items h → h ≤ place → Contains heads.new.items h }
    ensures rising { (i j : ℕ) → i < j → j < length heads.new.items
        → slice_index heads.new.items i < slice_index heads.new.items j }
    ensures fewer { length heads.new.items ≤ length heads.old.items }
{
    while !heads.is_empty() {
        if heads[heads.len() - 1] <= place {
            return;
        }
        heads.pop();
    }
}

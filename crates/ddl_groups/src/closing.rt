//! Groups of a path that are closed, since all that their members use is.
ghost use Rattle.std.specs.Prelude.{◌≡◌, ℕ, ◌+◌, ◌-◌, ◌^◌, ◌<◌, ◌≤◌, ◌≢◌, List, Contains, length, slice_index};
ghost use Rattle.std.specs.List.{All};
ghost use Rattle.ddl_groups.specs.declared.marks.Mark.TheVariants.{Closed};
ghost use Rattle.ddl_groups.specs.declared.marks.Step.{Step};
ghost use Rattle.ddl_groups.specs.Placing.{lists_of};
ghost use Rattle.ddl_groups.specs.Searching.{Holds, KeepsSeen, mark_at, unseen};

use crate::marks::{Mark, Search};

/// Closes the declarations that stand on the path from a place on, and gives them a label.
fn close_all(path: &[u32], head: usize, label: u32, marks: &mut Vec<Mark>, labels: &mut Vec<u32>)
    requires within { head ≤ length path.now }
    requires known { All (λ v. (v < length marks.old.items) × (v < length labels.old.items)) path.now }
    ensures long { (length marks.new.items ≡ length marks.old.items)
        × (length labels.new.items ≡ length labels.old.items) }
    ensures closed { (p : ℕ) → head ≤ p → p < length path.now
        → (mark_at marks.new.items (slice_index path.now p) ≡ Closed)
        × (slice_index labels.new.items (slice_index path.now p) ≡ label) }
    ensures others { (v : ℕ) → ((p : ℕ) → head ≤ p → p < length path.now → slice_index path.now p ≢ v)
        → (mark_at marks.new.items v ≡ mark_at marks.old.items v)
        × (slice_index labels.new.items v ≡ slice_index labels.old.items v) }
    ensures fewer { unseen marks.new.items ≤ unseen marks.old.items }
{
    for place in head..path.len() {
        let declaration = path[place] as usize;
        marks[declaration] = Mark::Closed;
        labels[declaration] = label;
    }
}

/// Closes the last group of the path, which begins at its last head. The uses are here for the contract alone.
fn close_last(search: &mut Search, _needs: &[Vec<u32>], head: usize)
    requires few { length _needs.now < 2 ^ 32 - 1 }
    requires holds { Holds (lists_of _needs.now) search.old }
    requires last { (0 < length search.old.heads.items)
        × (slice_index search.old.heads.items (length search.old.heads.items - 1) ≡ head) }
    requires before { (s : Step) → Contains search.old.pending.items s → s.from < head }
    ensures holds { Holds (lists_of _needs.now) search.new }
    ensures pending { search.new.pending.items ≡ search.old.pending.items }
    ensures seen { KeepsSeen search.old.marks.items search.new.marks.items }
    ensures shorter { length search.new.heads.items < length search.old.heads.items }
{
    close_all(
        &search.path,
        head,
        search.count,
        &mut search.marks,
        &mut search.labels,
    );
    search.path.truncate(head);
    search.heads.pop();
    search.count += 1;
}

/// Closes each group that begins at a place or behind it.
pub(crate) fn close_from(search: &mut Search, needs: &[Vec<u32>], least: usize)
    requires few { length needs.now < 2 ^ 32 - 1 }
    requires holds { Holds (lists_of needs.now) search.old }
    requires before { (s : Step) → Contains search.old.pending.items s → s.from < least }
    ensures holds { Holds (lists_of needs.now) search.new }
    ensures pending { search.new.pending.items ≡ search.old.pending.items }
    ensures seen { KeepsSeen search.old.marks.items search.new.marks.items }
    ensures below { (h : ℕ) → Contains search.new.heads.items h → h < least }
{
    while !search.heads.is_empty() {
        let head = search.heads[search.heads.len() - 1];
        if head < least {
            return;
        }
        close_last(search, needs, head);
    }
}

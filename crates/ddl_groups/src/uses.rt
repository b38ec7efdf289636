//! Which groups a group needs, and which need it.
ghost use Rattle.std.specs.Prelude.{◌≡◌, ℕ, ◌<◌, ◌≤◌, ◌≢◌, ◌⊎◌, ◌↔◌, Contains, length, slice_index, IfOk, OnOk};
ghost use Rattle.std.specs.List.{All};
ghost use Rattle.ddl_groups.specs.Groups.{group_at};
ghost use Rattle.ddl_groups.specs.Numbered.{AreGroupNeeds, AreNeedsMore};
ghost use Rattle.ddl_groups.specs.Placing.{AreUsers, lists_of};

use crate::lists::{add_to, empty_lists};
use ddl_base::NoMemory;
use std::alloc::Global;

/// The groups that each group needs, and the groups that need it.
#[derive(Drop)]
pub(crate) struct GroupUses {
    pub(crate) needs: Vec<Vec<u32>>,
    pub(crate) users: Vec<Vec<u32>>,
}

/// Adds what a declaration of a label uses.
fn add_uses(uses: &mut GroupUses, label: u32, used: &[u32], labels: &[u32]) -> Result<(), NoMemory>
    requires within { label < length uses.old.needs.items }
    requires known { All (λ b. b < length labels.now) used.now }
    requires labelled { All (λ l. l < length uses.old.needs.items) labels.now }
    requires users { AreUsers (lists_of uses.old.needs.items) (lists_of uses.old.users.items) }
    ensures users { OnOk result (AreUsers (lists_of uses.new.needs.items) (lists_of uses.new.users.items)) }
    ensures needs { OnOk result (AreNeedsMore (lists_of uses.old.needs.items) label used.now labels.now
        (lists_of uses.new.needs.items)) }
{
    for declaration in used {
        let other = labels[*declaration as usize];
        if other != label {
            add_to(&mut uses.needs, label as usize, other)?;
            add_to(&mut uses.users, other as usize, label)?;
        }
    }
    Ok(())
}

/// The groups that each group needs, and those that need it, by the labels of declarations and what these use.
pub(crate) fn group_uses(
    alloc: Global,
    needs: &[Vec<u32>],
    labels: &[u32],
    count: usize,
) -> Result<GroupUses, NoMemory>
    requires long { length labels.now ≡ length needs.now }
    requires known { (a : ℕ) → All (λ b. b < length needs.now) (group_at (lists_of needs.now) a) }
    requires labelled { All (λ l. l < count) labels.now }
    ensures long { IfOk result (λ uses. length uses.needs.items ≡ count) }
    ensures users { IfOk result (λ uses. AreUsers (lists_of uses.needs.items) (lists_of uses.users.items)) }
    ensures needs { IfOk result (λ uses. AreGroupNeeds (lists_of needs.now) labels.now (length needs.now)
        (lists_of uses.needs.items)) }
{
    let group_needs = empty_lists(alloc, count)?;
    let users = empty_lists(alloc, count)?;
    let mut uses = GroupUses {
        needs: group_needs,
        users,
    };
    for (declaration, used) in needs.iter().enumerate() {
        add_uses(&mut uses, labels[declaration], used, labels)?;
    }
    Ok(uses)
}

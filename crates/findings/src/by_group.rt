ghost use Rattle.std.specs.Prelude.{◌≡◌, ◌<◌, Bool, IfOk, IsOkUnless, map};
ghost use Rattle.model.specs.Layout.{Geometry, IsGeometry};
ghost use Rattle.model.specs.View.{View};
ghost use Rattle.findings.specs.Findings.{IsFinding};
ghost use Rattle.findings.specs.Groups.{AreFoundIn, AreFoundOf, IsEach, group_of};

use crate::finding::Finding;
use layout::Refusal;
use std::alloc::Global;

/// What was made of a cylinder group: what later work needs of it, and what was found.
#[derive(Drop)]
pub struct OfGroup<T> {
    pub kept: T,
    pub found: Vec<Finding>,
}

/// What is kept of all groups, in order of the groups, and what was found of all. Only `NoMemory` is refused.
pub fn joined<T: Drop>(
    alloc: Global,
    groups: Vec<OfGroup<T>>,
) -> Result<(Vec<T>, Vec<Finding>), Refusal>
    ensures kept { IfOk result (λ both. both.0.items ≡ map (λ one. one.kept) groups.items) }
    ensures found { IfOk result (λ both. (kinds : Finding → Bool) (geo : Geometry) (view : View) → IsGeometry geo
        → IsEach (λ g one. AreFoundIn kinds geo view g one.found.items) geo.groups groups.items → AreFoundOf kinds geo view both.1.items) }
    ensures error { IsOkUnless result Refusal.NoMemory }
{
    let mut kept = Vec::new(alloc);
    let mut all = Vec::new(alloc);
    for group in groups {
        let OfGroup {
            kept: one,
            mut found,
        } = group;
        kept.push(one)?;
        all.append(&mut found)?;
    }
    Ok((kept, all))
}

/// What was found of all groups, from what was found of each, in order of the groups. Only `NoMemory` is refused.
pub fn all_found(alloc: Global, groups: Vec<Vec<Finding>>) -> Result<Vec<Finding>, Refusal>
    ensures found { IfOk result (λ all. (kinds : Finding → Bool) (geo : Geometry) (view : View) → IsGeometry geo
        → IsEach (λ g found. AreFoundIn kinds geo view g found.items) geo.groups groups.items → AreFoundOf kinds geo view all.items) }
    ensures error { IsOkUnless result Refusal.NoMemory }
{
    let mut all = Vec::new(alloc);
    for group in groups {
        let mut found = group;
        all.append(&mut found)?;
    }
    Ok(all)
}

/// Each finding is of some group.
pub fn findings_are_of_groups()
    ensures { (geo : Geometry) (view : View) (f : Finding) → IsGeometry geo → IsFinding geo view f → group_of geo f < geo.groups }
{}

//! What a check finds on an image of the volume: the findings with their order, the repairs that mend the soft ones,
//! the verdict, and the report in which they are printed. Workers of a check make what they find of their cylinder
//! groups; what is found of each group is joined here, and the findings of all groups together are those of the
//! volume. The laws at the end say what findings mean for the rules that an image obeys.
#![tactic(auto)]

ghost use Rattle.std.specs.Prelude.{◌≡◌, ◌≤◌, ◌++◌, ◌↔◌, ℕ, List, []};
ghost use Rattle.model.specs.Layout.{Geometry, IsGeometry, inode_count};
ghost use Rattle.model.specs.View.{View};
ghost use Rattle.model.specs.Fresh.{fresh_view};
ghost use Rattle.model.specs.Metadata.{SameMetadata};
ghost use Rattle.model.specs.Rules.{ObeysRules, Rule};
ghost use Rattle.model.specs.Uses.{IsClaim, IsOwner};
ghost use Rattle.findings.specs.declared.finding.Finding.TheVariants.{Duplicate};
ghost use Rattle.findings.specs.Findings.{AllSoft, AreFindings, AreFindingsOf, IsFinding, finding_cmp, is_of_numbers};
ghost use Rattle.findings.specs.Numbers.{lost_below, unmarked_below};
ghost use Rattle.findings.specs.Rules.{NoneBreaksUpTo, rule_of};

mod by_group;
mod finding;
mod order;
mod repair;
mod reports;
mod verdicts;

pub use by_group::{OfGroup, all_found, findings_are_of_groups, joined};
pub use finding::Finding;
pub use order::in_order;
pub use repair::{Repair, repairs};
pub use reports::{report, verdict};
pub use verdicts::Verdict;

/// A view has one list of findings.
pub fn findings_are_unique()
    ensures { (geo : Geometry) (view : View) (fs gs : List Finding) → AreFindings geo view fs → AreFindings geo view gs → fs ≡ gs }
{}

/// The order of findings is that of their kinds, and then of their numbers from left to right.
pub fn order_is_by_kind_and_numbers()
    ensures { (x y : Finding) → ⟦<Finding as Ord>⟧.cmp x y ≡ finding_cmp x y }
{}

/// A finding breaks its rule, and a rule holds where no finding breaks it or one before it.
pub fn a_rule_is_broken_where_its_findings_are()
    ensures broken { (geo : Geometry) (view : View) (f : Finding) → IsFinding geo view f → 1 ≤ rule_of f → Rule geo view (rule_of f) → ⊥ }
    ensures holds { (geo : Geometry) (view : View) (n : ℕ) → NoneBreaksUpTo geo view n → Rule geo view n }
{}

/// An image obeys the rules exactly where each finding is of a soft kind.
pub fn rules_hold_where_findings_are_soft()
    ensures { (geo : Geometry) (view : View) → ObeysRules geo view ↔ AllSoft geo view }
{}

/// A claim is a duplicate exactly where it is not its block's owner.
pub fn duplicates_are_no_owners()
    ensures { (geo : Geometry) (view : View) (i k a : ℕ) → IsClaim geo view i k a
        → IsFinding geo view (Duplicate i k a) ↔ (IsOwner geo view a i k → ⊥) }
{}

/// The findings look at metadata alone.
pub fn metadata_decides()
    ensures { (geo : Geometry) (view other : View) → SameMetadata geo view other → (f : Finding) → IsFinding geo view f ↔ IsFinding geo other f }
{}

/// Nothing is found on the fresh image.
pub fn nothing_is_found_on_the_fresh_image()
    ensures { (geo : Geometry) → IsGeometry geo → AreFindings geo (fresh_view geo) [] }
{}

/// The marked numbers whose records are free, and then the unmarked ones whose records are not, are the findings that
/// compare the numbers' bits with their records.
pub fn numbers_tell_their_findings()
    ensures { (geo : Geometry) (view : View)
        → AreFindingsOf is_of_numbers geo view (lost_below geo view (inode_count geo) ++ unmarked_below geo view (inode_count geo)) }
{}

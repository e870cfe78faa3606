//! The two versions of the layout beside each other: what obeys the rules in version 1 obeys them in version 2 too, and shows
//! the same there.
#![tactic(auto)]

ghost use Rattle.std.specs.Prelude.{◌≡◌};
ghost use Rattle.model.specs.Layout.{Geometry};
ghost use Rattle.model.specs.View.{View};
ghost use Rattle.model.specs.Rules.{ObeysRules};
ghost use Rattle.versions.specs.Shown.{ShowsTheSame, of_version};

/// A view that obeys the rules of version 1 shows the same in version 2, and obeys the rules there: no file has more blocks
/// than a file of version 1 may have, so the double indirect pointer is in no use.
pub fn version_2_shows_the_same()
    ensures { (geo : Geometry) (view : View) → geo.version ≡ 1 → ObeysRules geo view → ShowsTheSame geo view (of_version 2 geo) view }
{}

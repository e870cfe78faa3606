//! A volume whose marks and links are exact, with nothing open and nothing held, is clean: a check of what users see finds
//! nothing.
#![tactic(auto)]

ghost use Rattle.std.specs.Prelude.{◌≡◌, ℕ, [], None, IsFalse};
ghost use Rattle.model.specs.Layout.{Geometry};
ghost use Rattle.findings.specs.Findings.{AreFindings};
ghost use Rattle.machine.specs.State.{State, open_at};
ghost use Rattle.machine.specs.Balance.{Balance, Exact};

/// On the image of an exact volume in balance, with no handle open and no block held, a check finds nothing: exactly what
/// is reachable is marked and claimed, and each link is an entry.
pub fn nothing_is_found_on_exact_images()
    ensures { (geo : Geometry) (state : State) → Balance geo state → Exact geo state → ((h : ℕ) → open_at state h ≡ None) → ((a : ℕ) → IsFalse (state.held a))
        → AreFindings geo state.view [] }
{}

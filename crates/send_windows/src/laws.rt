//! Laws of windows. Each is the contract of a function that does nothing: a caller that needs the law
//! calls the function.

ghost use Rattle.std.specs.Prelude.{◌≡◌, ◌≤◌, ℕ, Bool, List, Some};
ghost use Rattle.crash_base.specs.declared.numbers.BrickNo.{BrickNo};
ghost use Rattle.send_windows.specs.declared.fact.TheConstants.{FIRST_WINDOW, LEAST_WINDOW, LARGEST_WINDOW, MAX_BRICKS};
ghost use Rattle.send_windows.specs.Facts.{open_count, fact_of};
ghost use Rattle.send_windows.specs.Windows.{WindowsValue, KeepLimits, new_windows, chosen, AreTaken};
ghost use Rattle.send_windows.specs.Calls.{WindowCall, after_call, after_calls, fact_by_calls};

/// Windows are a function of the passes. After any calls of new windows a brick's window is the one of
/// the passes to it that were spent: 4 before any, and then one more for each that was answered, up to
/// 64, and half for each that met silence, down to 1. In flight are the passes to it that were given
/// less those that were spent, never less than 0.
pub fn windows_are_of_spent_passes()
    ensures first { FIRST_WINDOW ≡ 4 }
    ensures least { LEAST_WINDOW ≡ 1 }
    ensures largest { LARGEST_WINDOW ≡ 64 }
    ensures facts { (bricks w wq : ℕ) (holds : Bool) (calls : List WindowCall) (brick : BrickNo)
        → 1 ≤ wq → wq ≤ w → w ≤ bricks → bricks ≤ MAX_BRICKS → 1 ≤ brick.0 → brick.0 ≤ bricks
        → fact_of (after_calls (new_windows bricks w wq holds) calls).facts brick
        ≡ Some (fact_by_calls (new_windows bricks w wq holds) calls brick) }
{}

/// New windows keep the limits, and each call hands them on: bricks are numbered from 1 in order, a
/// window is from 1 to 64, and at most 64 passes to a brick are in flight, since one more is given only
/// where fewer are in flight than the window. The history begins with the mark of the making.
pub fn windows_keep_their_limits()
    ensures bricks { MAX_BRICKS ≡ 16 }
    ensures new { (bricks w wq : ℕ) (holds : Bool)
        → 1 ≤ wq → wq ≤ w → w ≤ bricks → bricks ≤ MAX_BRICKS
        → KeepLimits (new_windows bricks w wq holds) }
    ensures call { (s : WindowsValue) (call : WindowCall)
        → KeepLimits s → KeepLimits (after_call s call) }
{}

/// Passes that are taken together are to distinct bricks, and from wq to w in number.
pub fn taken_passes_are_lawful()
    ensures { (s : WindowsValue) (first : ℕ)
        → KeepLimits s → s.wq ≤ open_count s.facts → AreTaken s.wq s.w (chosen s first) }
{}

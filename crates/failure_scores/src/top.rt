//! The component of the greatest score.

ghost use Rattle.std.specs.Prelude.{◌≡◌, ℕ, List, [], ◌∷◌, ◌++◌, MatchOption};
ghost use Rattle.std.specs.List.{flat_map};
ghost use Rattle.crash_base.specs.declared.numbers.ComponentNo.{ComponentNo};
ghost use Rattle.failure_scores.specs.Scores.{score};
ghost use Rattle.failure_scores.specs.Top.{IsBest, IsTop};

use crate::report::{PathReport, score_of};
use crash_base::{ComponentNo, Moment};

/// The best of those before it and this component, whose score this is.
fn better(
    best: Option<(ComponentNo, u64)>,
    component: ComponentNo,
    score: u64,
) -> Option<(ComponentNo, u64)>
    ensures { (s : ComponentNo → ℕ) (seen : List ComponentNo) → s component ≡ score →
        IsBest s seen best → IsBest s (seen ++ component ∷ []) result }
{
    match best {
        None => if score == 0 {
            None
        } else {
            Some((component, score))
        },
        Some((least, greatest)) => {
            if greatest < score || (greatest == score && component.0 < least.0) {
                Some((component, score))
            } else {
                Some((least, greatest))
            }
        }
    }
}

/// The best of those before them and the components on this path.
fn best_on(
    reports: &[PathReport],
    now: Moment,
    path: &[ComponentNo],
    before: Option<(ComponentNo, u64)>,
) -> Option<(ComponentNo, u64)>
    ensures { (seen : List ComponentNo) → IsBest (λ c. score reports.now c now) seen before →
        IsBest (λ c. score reports.now c now) (seen ++ path.now) result }
{
    let mut best = before;
    for component in path {
        best = better(best, *component, score_of(reports, *component, now));
    }
    best
}

/// The best of the components on the paths of these reports.
fn best_of(reports: &[PathReport], now: Moment) -> Option<(ComponentNo, u64)>
    ensures { IsBest (λ c. score reports.now c now) (flat_map (λ r. r.path) reports.now) result }
{
    let mut best = None;
    for report in reports {
        best = best_on(reports, now, report.path.as_slice(), best);
    }
    best
}

/// The component of the greatest score over these reports.
pub(crate) fn top_of(reports: &[PathReport], now: Moment) -> Option<(ComponentNo, u64)>
    ensures { MatchOption result ((c : ComponentNo) → score reports.now c now ≡ 0)
        (λ top. IsTop reports.now now top.0 top.1) }
{
    best_of(reports, now)
}

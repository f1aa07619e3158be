//! Laws of scores. Each is the contract of a function that does nothing: a caller that needs the law calls the
//! function.

ghost use Rattle.std.specs.Prelude.{◌≡◌, ◌≢◌, ◌↔◌, ◌⊎◌, ℕ, ◌+◌, ◌<◌, ◌≤◌, List, [], ◌∷◌, ◌++◌, Contains, All, filter};
ghost use Rattle.crash_base.specs.declared.numbers.ComponentNo.{ComponentNo};
ghost use Rattle.crash_base.specs.declared.numbers.Moment.{Moment};
ghost use Rattle.failure_scores.specs.declared.report.TheConstants.{SCORED_MILLISECONDS};
ghost use Rattle.failure_scores.specs.declared.report.PathReport.{PathReport};
ghost use Rattle.failure_scores.specs.Scores.{is_recent, score};
ghost use Rattle.failure_scores.specs.Top.{IsTop};

/// A score is a count of reports: 0 without any, and a further report adds one exactly where its path has the
/// component, however often, and no more than ten seconds passed since. Else it adds nothing, wherever it stands.
pub fn scores_are_counts()
    ensures interval { SCORED_MILLISECONDS ≡ 10000 }
    ensures none { (c : ComponentNo) (now : Moment) → score [] c now ≡ 0 }
    ensures one { (before after : List PathReport) (r : PathReport) (c : ComponentNo) (now : Moment)
        → Contains r.path c → now.0 ≤ r.moment.0 + 10000
        → score (before ++ r ∷ after) c now ≡ score (before ++ after) c now + 1 }
    ensures old { (before after : List PathReport) (r : PathReport) (c : ComponentNo) (now : Moment)
        → r.moment.0 + 10000 < now.0
        → score (before ++ r ∷ after) c now ≡ score (before ++ after) c now }
    ensures elsewhere { (before after : List PathReport) (r : PathReport) (c : ComponentNo) (now : Moment)
        → All (λ d. d ≢ c) r.path
        → score (before ++ r ∷ after) c now ≡ score (before ++ after) c now }
{}

/// No two components are the top, and none is so with two scores: no other outscores it, and each that scores as much
/// has a greater number.
pub fn one_component_is_top()
    ensures { (reports : List PathReport) (now : Moment) (c d : ComponentNo) (n m : ℕ)
        → IsTop reports now c n → IsTop reports now d m → (c ≡ d) × (n ≡ m) }
{}

/// A report that is too old at a moment scores nothing from then on: without it each score is the same, at that
/// moment and at each later one.
pub fn forgotten_reports_score_nothing()
    ensures { (reports : List PathReport) (then now : Moment) (c : ComponentNo) → then.0 ≤ now.0
        → score (filter (is_recent then) reports) c now ≡ score reports c now }
{}

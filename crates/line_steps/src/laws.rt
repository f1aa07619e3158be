//! Laws of the lines of the head. Each is the contract of a function that does nothing: a caller that needs the law
//! calls the function.

ghost use Rattle.std.specs.Prelude.{◌≡◌, ◌≢◌, ℕ, List, [], length, None, true};
ghost use Rattle.auction_rows.specs.Parts.{site_parts};
ghost use Rattle.scenario_text.specs.Answer.{Done, Refused};
ghost use Rattle.scenario_text.specs.declared.head_line.HeadLine.TheVariants as heads;
ghost use Rattle.line_steps.specs.Head.{head_step};
ghost use Rattle.line_steps.specs.declared.head.Head.{Head};
ghost use Rattle.line_steps.specs.declared.head.TheConstants.{SITE_BRICKS, SITE_LEAST, SITE_MOST};

/// Who declares the site has three bricks: a write asks all three, and two of them are to store it. So where the line
/// `site` is done, `bricks 3 3 2` in its place sets up the same sessions, and writes the same. It leaves the parts of
/// the site, said to be so, and writes nothing. It is done where no component and no bricks are there, and refused
/// where a component is.
pub fn sites_have_three_bricks()
    ensures limits { (SITE_BRICKS ≡ 3) × (SITE_MOST ≡ 3) × (SITE_LEAST ≡ 2) }
    ensures declared { (head new : Head) (text : List ℕ) → head_step head heads.Site ≡ Done new text
        → (other : Head) × (head_step head (heads.Bricks 3 3 2) ≡ Done other text) × (new.setup ≡ other.setup) }
    ensures parts { (head new : Head) (text : List ℕ) → head_step head heads.Site ≡ Done new text
        → (new.site ≡ true) × (new.parts ≡ site_parts) × (text ≡ []) }
    ensures taken { (head : Head) → length head.parts.components ≡ 0 → head.setup.counts ≡ None
        → (new : Head) × (head_step head heads.Site ≡ Done new []) }
    ensures taken_once { (head : Head) → length head.parts.components ≢ 0 → head_step head heads.Site ≡ Refused }
{}

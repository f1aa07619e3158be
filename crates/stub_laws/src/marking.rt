//! Laws of the marks of a write's passes.

ghost use Rattle.std.specs.Prelude.{ℕ, ◌≤◌, List, Ok, Err};
ghost use Rattle.crash_base.specs.declared.numbers.Moment.{Moment};
ghost use Rattle.crash_base.specs.declared.numbers.SessionKey.{SessionKey};
ghost use Rattle.crash_base.specs.declared.numbers.Version.{Version};
ghost use Rattle.session_cookie.specs.declared.cookie.Cookie.{Cookie};
ghost use Rattle.send_windows.specs.declared.pass.Pass.{Pass};
ghost use Rattle.send_windows.specs.Passes.{HaveDistinctBricks};
ghost use Rattle.ssm_stub.specs.declared.cause.BrickCause.{BrickCause};
ghost use Rattle.ssm_stub.specs.declared.write_call.WriteRefusal.TheVariants.{Missed};
ghost use Rattle.ssm_stub.specs.Ends.{bricks_of, WriteEnds};
ghost use Rattle.ssm_stub.specs.Outcomes.{IsMissed, IsWritten};
ghost use Rattle.ssm_stub.specs.Writes.{write_start};
ghost use Rattle.stub_laws.specs.Marks.{AreMarked};

use outside::Link;

/// Over any link, once a write ended with an answer, a pass is Answered exactly where the events of its
/// brick end in a lawful reply, Silent exactly where they end in silence or the brick strayed, and Unheard
/// exactly where the ask was sent and nothing was heard since: this holds of the very calls of the link by
/// which it was written or missed.
pub fn marks_are_of_outcomes<L: Link>(_link: &L)
    ensures written { (old new : L) (before passes : List Pass) (least : ℕ) (nonce : Version)
        (key : SessionKey) (value : List ℕ) (expiry : Moment) (cookie : Cookie)
        → HaveDistinctBricks before → 1 ≤ least
        → WriteEnds L.makes (write_start (bricks_of before) least nonce key value expiry)
        old new passes (Ok cookie)
        → (written : IsWritten L.makes (bricks_of before) least nonce key expiry old new cookie)
        × AreMarked nonce key written.calls before passes }
    ensures missed { (old new : L) (before passes : List Pass) (least : ℕ) (nonce : Version)
        (key : SessionKey) (value : List ℕ) (expiry : Moment) (causes : List BrickCause)
        → HaveDistinctBricks before → 1 ≤ least
        → WriteEnds L.makes (write_start (bricks_of before) least nonce key value expiry)
        old new passes (Err (Missed causes))
        → (missed : IsMissed L.makes (bricks_of before) least nonce key old new causes)
        × AreMarked nonce key missed.calls before passes }
{}

//! Laws of what comes after an answer.

ghost use Rattle.std.specs.Prelude.{◌≡◌, ℕ, List, [], ◌++◌, Some, Result};
ghost use Rattle.crash_base.specs.declared.numbers.BrickNo.{BrickNo};
ghost use Rattle.crash_base.specs.declared.numbers.Moment.{Moment};
ghost use Rattle.crash_base.specs.declared.numbers.SessionKey.{SessionKey};
ghost use Rattle.crash_base.specs.declared.numbers.Version.{Version};
ghost use Rattle.session_cookie.specs.declared.cookie.Cookie.{Cookie};
ghost use Rattle.ssm_stub.specs.declared.event.Told.{Told};
ghost use Rattle.ssm_stub.specs.declared.read_call.ReadRefusal.{ReadRefusal};
ghost use Rattle.ssm_stub.specs.declared.write_call.WriteRefusal.{WriteRefusal};
ghost use Rattle.ssm_stub.specs.Reads.{read_answer, read_machine, read_start};
ghost use Rattle.ssm_stub.specs.Runs.{Fits, after};
ghost use Rattle.ssm_stub.specs.Writes.{write_answer, write_machine, write_start};

/// An answer stays: what a write hears after it has its answer does not change the answer, and a read
/// hears nothing after it. It refuses a write whose answer changes with what it hears later.
pub fn answers_stay()
    ensures write { (first more : List Told) (bricks : List BrickNo) (least : ℕ) (nonce : Version)
        (key : SessionKey) (value : List ℕ) (expiry : Moment) (answer : Result Cookie WriteRefusal)
        → Fits write_machine (write_start bricks least nonce key value expiry) (first ++ more)
        → write_answer (after write_machine (write_start bricks least nonce key value expiry) first) ≡ Some answer
        → write_answer (after write_machine (write_start bricks least nonce key value expiry) (first ++ more))
        ≡ Some answer }
    ensures read { (first more : List Told) (now : Moment) (nonce : Version) (cookie : Cookie)
        (answer : Result (List ℕ) ReadRefusal)
        → Fits read_machine (read_start now nonce cookie) (first ++ more)
        → read_answer (after read_machine (read_start now nonce cookie) first) ≡ Some answer
        → more ≡ [] }
{}

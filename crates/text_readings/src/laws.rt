//! Laws of what texts are read as. Each is the contract of a function that does nothing: a caller that needs the law
//! calls the function.

ghost use Rattle.std.specs.Prelude.{◌≡◌, ◌≢◌, ◌↔◌, ℕ, List, Option, Some, None, Result, Err};
ghost use Rattle.crash_base.specs.declared.numbers.RequestNo.{RequestNo};
ghost use Rattle.crash_base.specs.declared.numbers.SessionKey.{SessionKey};
ghost use Rattle.session_cookie.specs.Text.{IsAnswer, IsTextOf};
ghost use Rattle.session_cookie.specs.Token.{IsReadAs};
ghost use Rattle.session_cookie.specs.declared.codec.CookieRefusal.{CookieRefusal};
ghost use Rattle.session_cookie.specs.declared.codec.CookieRefusal.TheVariants.{OutOfMemory};
ghost use Rattle.session_cookie.specs.declared.cookie.Cookie.{Cookie};
ghost use Rattle.text_readings.specs.CookieTexts.{answer_to, cookie_of_text};
ghost use Rattle.text_readings.specs.TokenTexts.{request_of_text};

/// The answer to a text under a key is what the text calls for: the cookie, or why it is none, and never out of memory.
/// Whatever decoding answers besides out of memory is this answer. It refuses a cookie that is taken under another key.
pub fn texts_are_answered_once()
    ensures answer { (key text : List ℕ) → IsAnswer key text (answer_to key text) }
    ensures memory { (key text : List ℕ) → answer_to key text ≢ Err OutOfMemory }
    ensures only { (key text : List ℕ) (answer : Result Cookie CookieRefusal)
        → IsAnswer key text answer → answer ≢ Err OutOfMemory → answer ≡ answer_to key text }
{}

/// A cookie is accepted of a text exactly where the text is the text of this cookie under the key; and none is exactly
/// where it is the text of none.
pub fn cookies_are_accepted_of_their_texts()
    ensures cookie { (key text : List ℕ) (cookie : Cookie)
        → (cookie_of_text key text ≡ Some cookie) ↔ IsTextOf key cookie text }
    ensures none { (key text : List ℕ)
        → (cookie_of_text key text ≡ None) ↔ ((cookie : Cookie) → ¬ IsTextOf key cookie text) }
{}

/// A text is read, in a session and under a key, as the request whose token of the session it is, and as none where it
/// is the token of none. Whatever reading it answers is this.
pub fn tokens_are_read_once()
    ensures read { (key text : List ℕ) (session : SessionKey)
        → IsReadAs key session text (request_of_text key session text) }
    ensures only { (key text : List ℕ) (session : SessionKey) (answer : Option RequestNo)
        → IsReadAs key session text answer → answer ≡ request_of_text key session text }
{}

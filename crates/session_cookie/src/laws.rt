//! Laws of cookies and tokens. Each is the contract of a function that does nothing: a caller that
//! needs the law calls the function.

ghost use Rattle.std.specs.Prelude.{◌≡◌, ◌≢◌, ◌≤◌, ℕ, List, length, Option, Some, Result, Ok, Err};
ghost use Rattle.crash_base.specs.declared.numbers.RequestNo.{RequestNo};
ghost use Rattle.crash_base.specs.declared.numbers.SessionKey.{SessionKey};
ghost use Rattle.session_cookie.specs.declared.codec.CookieRefusal.{CookieRefusal};
ghost use Rattle.session_cookie.specs.declared.codec.CookieRefusal.TheVariants.{OutOfMemory};
ghost use Rattle.session_cookie.specs.declared.cookie.Cookie.{Cookie};
ghost use Rattle.session_cookie.specs.declared.cookie.TheConstants.{MAX_HOLDERS};
ghost use Rattle.session_cookie.specs.Cookie.{IsCookie};
ghost use Rattle.session_cookie.specs.Text.{HasForm, IsAnswer, IsTextOf, Spells};
ghost use Rattle.session_cookie.specs.Token.{IsReadAs, IsRequest, token_of};

/// A text that is a cookie under a key, as encoding gives it, is decoded under that key to this
/// cookie, where memory does not run out.
pub fn cookies_decode_back()
    ensures { (key text : List ℕ) (cookie : Cookie) (a : Result Cookie CookieRefusal)
        → IsTextOf key cookie text → IsAnswer key text a → a ≢ Err OutOfMemory → a ≡ Ok cookie }
{}

/// A text has one answer at most besides out of memory. So a cookie and each refusal come exactly
/// where the text calls for them.
pub fn texts_have_one_answer()
    ensures { (key text : List ℕ) (a b : Result Cookie CookieRefusal)
        → IsAnswer key text a → IsAnswer key text b
        → a ≢ Err OutOfMemory → b ≢ Err OutOfMemory → a ≡ b }
{}

/// A text spells the fields of one cookie at most, and one tag.
pub fn texts_spell_one_cookie()
    ensures { (text bytes other_bytes : List ℕ) (cookie other : Cookie) (tag other_tag : List ℕ)
        → Spells text bytes → HasForm bytes cookie tag
        → Spells text other_bytes → HasForm other_bytes other other_tag
        → (cookie ≡ other) × (tag ≡ other_tag) }
{}

/// A cookie that a text says has 1 to 16 bricks (`MAX_HOLDERS`).
pub fn cookies_have_few_bricks()
    ensures few { (cookie : Cookie) → IsCookie cookie
        → (1 ≤ length cookie.bricks) × (length cookie.bricks ≤ MAX_HOLDERS) }
    ensures limit { MAX_HOLDERS ≡ 16 }
{}

/// A request's token of a session is read back as this request.
pub fn tokens_read_back()
    ensures { (key : List ℕ) (session : SessionKey) (r : RequestNo) (read : Option RequestNo)
        → IsRequest r → IsReadAs key session (token_of key session r) read → read ≡ Some r }
{}

/// A text is the token of one request at most, whatever the key and the session.
pub fn tokens_are_of_one_request()
    ensures { (key other_key : List ℕ) (session other_session : SessionKey) (r other : RequestNo)
        → IsRequest r → IsRequest other
        → token_of key session r ≡ token_of other_key other_session other → r ≡ other }
{}

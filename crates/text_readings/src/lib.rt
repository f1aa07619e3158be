//! What the texts of a request are read as: the cookie that a text is, and the request whose token a text is.
//!
//! `session_cookie` decodes a text and reads a token, and says by relations when an answer is right. Here the same
//! answers are functions of the text: `cookie_of_text` of the key of the service and a text, and `request_of_text` of
//! the key, a session and a text. So what is decided of a request is a function of its bytes, and what is written of it
//! can be foretold. There is no code: a caller decodes and reads with `session_cookie`, and calls a law to know that
//! the answer is that of the function.
//!
//! - `texts_are_answered_once` and `tokens_are_read_once`: the function's answer is lawful, and no other is.
//! - `cookies_are_accepted_of_their_texts`: a cookie is accepted exactly where the text is its text under the key.
#![tactic(auto)]

mod laws;

pub use laws::{
    cookies_are_accepted_of_their_texts, texts_are_answered_once, tokens_are_read_once,
};

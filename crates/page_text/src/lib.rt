//! Pages of HTML, as the service sends them.
//!
//! A page has a heading, which is its title too, and lines of text, links and forms:
//!
//! ```text
//! let mut lines = PageLineList::new(alloc);
//! lines.push(PageLine::Para { text })?;
//! let text = page(alloc, b"Auctions", &lines)?;
//! ```
//!
//! Each text is escaped where it is written, by character references (HTML Standard of the WHATWG,
//! section 13.1.4). The law `escapes_hide_markup` says that no text can begin a tag or end an attribute:
//! what stands for it has no `<`, `>`, `"` or `'`. `escapes_read_back` says that who reads the
//! references again has the text that was given, and `escapes_differ` that texts which differ do so on
//! the page too. `pages_have_own_markup_alone` says of a whole page that it has the markup of its lines,
//! whatever their texts are, and that each `&` of it begins one of the five references.
//!
//! A page is written in one pass, into one vector: each byte of the heading and of a field's name is
//! visited twice, and each other byte once.
#![tactic(auto)]

mod escapes;
mod laws;
mod page_line;
mod pages;

pub use laws::{
    escapes_differ, escapes_hide_markup, escapes_read_back, pages_have_own_markup_alone,
};
pub use page_line::{FieldNameList, PageLine, PageLineList};
pub use pages::page;

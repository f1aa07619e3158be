//! Descriptors: a deployment as an operator writes it, in TOML.
//!
//! ```text
//! [[component]]
//! name = "catalogue"
//! hard = ["store"]
//! soft = ["mailer"]
//! tables = [7, 8]
//! methods = [{ name = "find", idempotent = true }]
//! ```
//!
//! Each table of `component` is a component, in the order of their numbers; without that key there
//! is none. Only `name` is needed: 1 to 32 letters of ASCII, digits or `_`, and not `app`. `hard`
//! and `soft` name the components that it calls: a hard one must be rebooted with it, and a soft
//! one may be missing for a while. `tables` has the numbers, from 0 to 255, of the tables that it
//! owns. These three are empty by default. A method has a name like a component's, which may be
//! `app` too, and says whether a call of it may be made again; by default there is one method
//! `call`, which is idempotent. Other keys are passed over.
//!
//! `read_descriptors` reads a text and checks its parts:
//!
//! ```text
//! let deployment = read_descriptors(alloc, text)?;
//! ```
//!
//! It is built in four steps. The bytes spell a document, its tables are descriptions, these make
//! the parts of a deployment, and the parts are checked. A name of no component becomes the number
//! 65,535, which is no component's, so the check refuses it.
//!
//! Besides out of memory a text has exactly one answer, and `IsAnswer` says of each answer which
//! texts have it. A wrong field that is reported is the first one. The laws `texts_have_an_answer`,
//! `texts_have_one_answer` and `wrong_fields_are_first` say so.
//!
//! A document is TOML 1.1, in which arrays, inline tables and dotted keys nest at most 80 deep, also
//! under keys that are passed over. It is held in memory while it is read.
#![tactic(auto)]

mod assembly;
mod description;
mod keys;
mod laws;
mod names;
mod refusals;
mod text;

pub use laws::{texts_have_an_answer, texts_have_one_answer, wrong_fields_are_first};
pub use refusals::{FieldName, TextRefusal};
pub use text::read_descriptors;

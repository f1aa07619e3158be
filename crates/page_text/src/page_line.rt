//! The lines of a page.

use crash_base::{FieldText, Items};

/// The names of a form's fields, in order.
pub type FieldNameList = Items<FieldText>;

/// A line of a page. Its texts are any bytes: they are escaped where the page is written.
#[derive(Drop)]
pub enum PageLine {
    /// A paragraph.
    Para {
        text: FieldText,
    },
    /// A text that leads to an address.
    Link {
        address: FieldText,
        text: FieldText,
    },
    /// Fields to fill in. Their values are sent to the address, with the token, which is not shown.
    Form {
        address: FieldText,
        token: FieldText,
        fields: FieldNameList,
    },
}

/// The lines of a page, in order.
pub type PageLineList = Items<PageLine>;

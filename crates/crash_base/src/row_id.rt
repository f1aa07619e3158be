//! Ids of rows.

ghost use Rattle.std.specs.Prelude.{◌≡◌};
ghost use Rattle.crash_base.specs.RowId.{same_id, id_before};

/// The service's own table, which no component owns.
pub const SERVICE_TABLE: u8 = 0;

/// A row, by its table and its key there.
#[derive(Clone, Copy)]
pub struct RowId {
    /// `SERVICE_TABLE` is the service's own, and the others are owned by components.
    pub table: u8,
    /// Any number, which no other row of the table has.
    pub key: u64,
}

impl RowId {
    /// Whether this row comes before the other: by table, and within one table by key.
    pub fn is_before(self, other: RowId) -> bool
        ensures { result ≡ id_before self other }
    {
        self.table < other.table || (self.table == other.table && self.key < other.key)
    }

    /// Whether both are the same row.
    pub fn is_same(self, other: RowId) -> bool
        ensures { result ≡ same_id self other }
    {
        self.table == other.table && self.key == other.key
    }
}

//! Rows in an ordered map, which takes writes all or none.

ghost use Rattle.std.specs.Prelude.{◌≡◌, [], IfOk, OnOk, OnErr, All};
ghost use Rattle.std.specs.BTreeMap.{ContainsKey};
ghost use Rattle.crash_base.specs.Rows.{put, put_all, AreOrdered};
ghost use Rattle.outside.specs.Places.{place_order, place_of, rows_at, HasPlace};

use crash_base::{OutOfMemory, RowBytes, RowId, RowList, RowWrite, copied_rows};
use std::alloc::Global;
use std::collections::BTreeMap;
use std::marker::Model;

/// Where the row of an id is kept: by table, and within one table by key.
#[derive(Clone, Copy, PartialEq, Eq, PartialOrd, Ord)]
pub(crate) struct Place {
    table: u8,
    key: u64,
}

/// A place for each id that was put or was to be put. It is empty where memory ran out before its row
/// was put.
type Places = BTreeMap<Place, Option<RowBytes>>;

/// Rows in order of id, each id once.
#[derive(Drop)]
pub(crate) struct RowMap {
    places: Places,
}

impl Model for RowMap {
    ghost use Rattle.std.specs.Prelude.{List};
    ghost use Rattle.crash_base.specs.declared.rows.RowWrite.{RowWrite};

    ghost Value = { List RowWrite };

    ghost use Rattle.crash_base.specs.Rows.{AreOrdered};
    ghost use Rattle.outside.specs.Places.{rows_at};

    ghost view = { λ m. rows_at m.places.entries };

    ghost invariant = { λ m. AreOrdered (rows_at m.places.entries) };
}

/// The place of this id.
fn place_of_id(id: RowId) -> Place
    ensures { result ≡ place_of id }
{
    Place {
        table: id.table,
        key: id.key,
    }
}

/// The id of this place.
fn id_at(place: Place) -> RowId
    ensures { place ≡ place_of result }
{
    RowId {
        table: place.table,
        key: place.key,
    }
}

/// Makes a place, if it is not there.
fn make_place(places: &mut Places, place: Place) -> Result<(), OutOfMemory>
    ensures rows { rows_at places.new.entries ≡ rows_at places.old.entries }
    ensures others { (q : Place) → ContainsKey place_order places.old q
        → ContainsKey place_order places.new q }
    ensures made { OnOk result (ContainsKey place_order places.new place) }
{
    if places.contains_key(&place) {
        return Ok(());
    }
    places.insert(place, None)?;
    Ok(())
}

/// Makes a place for each row, and puts none. Where memory runs out, the places made so far stay.
fn make_places(places: &mut Places, rows: &[RowWrite]) -> Result<(), OutOfMemory>
    ensures rows { rows_at places.new.entries ≡ rows_at places.old.entries }
    ensures made { OnOk result (All (HasPlace places.new) rows.now) }
{
    for row in rows {
        make_place(places, place_of_id(row.id))?;
    }
    Ok(())
}

/// Puts a row that has its place. It takes no memory.
fn fill_place(places: &mut Places, row: RowWrite)
    requires { HasPlace places.old row }
    ensures rows { rows_at places.new.entries ≡ put row (rows_at places.old.entries) }
    ensures others { (q : Place) → ContainsKey place_order places.old q
        → ContainsKey place_order places.new q }
{
    match places.insert(place_of_id(row.id), Some(row.bytes)) {
        Ok(_) => {}
        Err(_) => unreachable!(),
    }
}

/// Puts rows that have their places, the first first. It takes no memory.
fn fill_places(places: &mut Places, rows: Vec<RowWrite>)
    requires { All (HasPlace places.old) rows.items }
    ensures { rows_at places.new.entries ≡ put_all rows.items (rows_at places.old.entries) }
{
    for row in rows {
        fill_place(places, row);
    }
}

/// Copies of the rows at these places, in order.
fn copies_at(alloc: Global, places: &Places) -> Result<Vec<RowWrite>, OutOfMemory>
    ensures { IfOk result (λ copies. copies.items ≡ rows_at places.now.entries) }
{
    let mut copies = Vec::new(alloc);
    for (place, bytes) in places {
        if let Some(bytes) = bytes {
            copies.push(RowWrite {
                id: id_at(*place),
                bytes: RowBytes::copied(alloc, bytes.as_slice())?,
            })?;
        }
    }
    Ok(copies)
}

impl RowMap {
    /// No rows. It takes no memory.
    pub(crate) fn new(alloc: Global) -> RowMap
        ensures { result ≡ [] }
    {
        RowMap {
            places: BTreeMap::new(alloc),
        }
    }

    /// Puts rows, the first first, all or none. With n rows that are there it visits about log n of
    /// them for each that is put.
    pub(crate) fn put_rows(&mut self, rows: Vec<RowWrite>) -> Result<(), OutOfMemory>
        ensures ok { OnOk result (self.new ≡ put_all rows.items self.old) }
        ensures err { OnErr result (self.new ≡ self.old) }
    {
        make_places(&mut self.places, rows.as_slice())?;
        fill_places(&mut self.places, rows);
        Ok(())
    }

    /// Puts copies of rows, as `put_rows` does. It visits each byte once.
    pub(crate) fn put_copies(&mut self, alloc: Global, rows: &[RowWrite]) -> Result<(), OutOfMemory>
        ensures ok { OnOk result (self.new ≡ put_all rows.now self.old) }
        ensures err { OnErr result (self.new ≡ self.old) }
    {
        let copies = copied_rows(alloc, rows)?.into_vec();
        self.put_rows(copies)
    }

    /// Copies of all rows, in order of id. It visits each byte once.
    pub(crate) fn copied(&self, alloc: Global) -> Result<RowList, OutOfMemory>
        ensures rows { IfOk result (λ rows. rows ≡ self.now) }
        ensures ordered { AreOrdered self.now }
    {
        Ok(RowList::from_vec(copies_at(alloc, &self.places)?))
    }
}

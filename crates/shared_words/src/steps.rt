//! The steps of the table, each with what it tells.

ghost use Rattle.std.specs.Prelude.{◌≡◌, ℕ, ◌+◌, ◌-◌, ◌^◌, ◌<◌, ◌≤◌, [], ◌∷◌, ◌++◌, max, nat_lt, length, IfOk, false, true};
ghost use Rattle.outside.specs.declared.serials.TheConstants.{SERIALS_END};
ghost use Rattle.outside.specs.Serials.{AllDiffer};
ghost use Rattle.shared_words.specs.Rule.{Finds, sight_of};

use crate::plays::{Comparing, Count, Cut, Drawing, Looking, Raising, Seeing, Sum};
use crate::view::{About, View, WordRule};
use atomic_table::{Seat, Table};
use crash_base::{GroupNo, OutOfMemory};
use std::alloc::Global;
use std::marker::Brand;

/// The serial word. The generation of a group stands behind it, by the group's number.
const SERIAL: usize = 0;

/// The table of some words.
pub type WordTable = Table<(), View, About, WordRule, Global>;

/// A seat of the table.
pub type TableSeat = Seat<(), View>;

/// The serial word. Where it is below the end, a number may be drawn. Its parameter says how many parts there are.
fn see_by<C: Count>(table: &WordTable, seat: &mut TableSeat) -> u64
    requires count { C.count ≡ table.now.shared.key.parts }
    requires table { (seat.old.table_id ≡ table.now.shared.table_id)
        × (table.now.shared.table_id.words ≡ 1 + table.now.shared.key.groups) }
    requires some { (0 < seat.old.me.0.parts) × (seat.old.me.0.flying ≡ false) }
    ensures table { seat.new.table_id ≡ table.now.shared.table_id }
    ensures seen { (seat.new.me ≡ (
      record (seat.old.me.0) {
        flying = nat_lt result SERIALS_END;
        seen = result;
      },
      seat.old.me.1,
    )) × (seat.old.me.0.seen ≤ result) }
    ensures whole { seat.old.me.0.parts ≡ C.count → result ≡ length seat.old.me.0.drawn }
{
    table.shared.load::<Seeing<C>>(seat, SERIAL)
}

/// The serial word. Where it is below the end, a number may be drawn.
pub fn see_serial(table: &WordTable, seat: &mut TableSeat) -> u64
    requires table { (seat.old.table_id ≡ table.now.shared.table_id)
        × (table.now.shared.table_id.words ≡ 1 + table.now.shared.key.groups) }
    requires some { (0 < seat.old.me.0.parts) × (seat.old.me.0.flying ≡ false) }
    ensures table { seat.new.table_id ≡ table.now.shared.table_id }
    ensures seen { (seat.new.me ≡ (
      record (seat.old.me.0) {
        flying = nat_lt result SERIALS_END;
        seen = result;
      },
      seat.old.me.1,
    )) × (seat.old.me.0.seen ≤ result) }
    ensures whole { seat.old.me.0.parts ≡ table.now.shared.key.parts → result ≡ length seat.old.me.0.drawn }
{
    see_by::<Brand>(table, seat)
}

/// Draws a number that no seat has drawn. Its parameter says how many parts there are.
fn draw_by<C: Count>(table: &WordTable, seat: &mut TableSeat) -> u64
    requires count { C.count ≡ table.now.shared.key.parts }
    requires table { (seat.old.table_id ≡ table.now.shared.table_id)
        × (table.now.shared.table_id.words ≡ 1 + table.now.shared.key.groups) }
    requires flying { seat.old.me.0.flying ≡ true }
    ensures table { seat.new.table_id ≡ table.now.shared.table_id }
    ensures drawn { (seat.new.me ≡ (
      record (seat.old.me.0) {
        flying = false;
        drawn = seat.old.me.0.drawn ++ result ∷ [];
        seen = result;
      },
      seat.old.me.1,
    )) × (seat.old.me.0.seen ≤ result) }
    ensures small { result < 2 ^ 62 + 2 ^ 32 }
    ensures differ { AllDiffer (seat.old.me.0.drawn ++ result ∷ []) }
    ensures whole { seat.old.me.0.parts ≡ C.count → result ≡ length seat.old.me.0.drawn }
{
    table.shared.fetch_add::<Drawing<C>>(seat, SERIAL, 1)
}

/// Draws a number that no seat has drawn.
pub fn draw_serial(table: &WordTable, seat: &mut TableSeat) -> u64
    requires table { (seat.old.table_id ≡ table.now.shared.table_id)
        × (table.now.shared.table_id.words ≡ 1 + table.now.shared.key.groups) }
    requires flying { seat.old.me.0.flying ≡ true }
    ensures table { seat.new.table_id ≡ table.now.shared.table_id }
    ensures drawn { (seat.new.me ≡ (
      record (seat.old.me.0) {
        flying = false;
        drawn = seat.old.me.0.drawn ++ result ∷ [];
        seen = result;
      },
      seat.old.me.1,
    )) × (seat.old.me.0.seen ≤ result) }
    ensures small { result < 2 ^ 62 + 2 ^ 32 }
    ensures differ { AllDiffer (seat.old.me.0.drawn ++ result ∷ []) }
    ensures whole { seat.old.me.0.parts ≡ table.now.shared.key.parts → result ≡ length seat.old.me.0.drawn }
{
    draw_by::<Brand>(table, seat)
}

/// The generation of a group. Its parameter says how many parts there are.
fn look_by<C: Count>(table: &WordTable, seat: &mut TableSeat, g: GroupNo) -> u64
    requires count { C.count ≡ table.now.shared.key.parts }
    requires table { (seat.old.table_id ≡ table.now.shared.table_id)
        × (table.now.shared.table_id.words ≡ 1 + table.now.shared.key.groups) }
    requires group { (g.0 < table.now.shared.key.groups) × (0 < seat.old.me.0.parts) }
    ensures table { seat.new.table_id ≡ table.now.shared.table_id }
    ensures seen { seat.new.me ≡ (
      record (seat.old.me.0) {
        sights = seat.old.me.0.sights ++ sight_of g.0 result ∷ [];
      },
      seat.old.me.1,
    ) }
    ensures found { Finds C.count g.0 result seat.old.me.0 }
{
    table.shared.load::<Looking<C>>(seat, 1 + g.0 as usize)
}

/// The generation of a group.
pub fn see_generation(table: &WordTable, seat: &mut TableSeat, g: GroupNo) -> u64
    requires table { (seat.old.table_id ≡ table.now.shared.table_id)
        × (table.now.shared.table_id.words ≡ 1 + table.now.shared.key.groups) }
    requires group { (g.0 < table.now.shared.key.groups) × (0 < seat.old.me.0.parts) }
    ensures table { seat.new.table_id ≡ table.now.shared.table_id }
    ensures seen { seat.new.me ≡ (
      record (seat.old.me.0) {
        sights = seat.old.me.0.sights ++ sight_of g.0 result ∷ [];
      },
      seat.old.me.1,
    ) }
    ensures found { Finds table.now.shared.key.parts g.0 result seat.old.me.0 }
{
    look_by::<Brand>(table, seat, g)
}

/// Raises the generation of a group, and gives what it was. Its parameter says how many parts there are.
fn raise_by<C: Count>(table: &WordTable, seat: &mut TableSeat, g: GroupNo, n: u64) -> u64
    requires count { C.count ≡ table.now.shared.key.parts }
    requires table { (seat.old.table_id ≡ table.now.shared.table_id)
        × (table.now.shared.table_id.words ≡ 1 + table.now.shared.key.groups) }
    requires group { (g.0 < table.now.shared.key.groups) × (0 < seat.old.me.0.parts) }
    ensures table { seat.new.table_id ≡ table.now.shared.table_id }
    ensures seen { seat.new.me ≡ (
      record (seat.old.me.0) {
        sights = seat.old.me.0.sights ++ sight_of g.0 (max result n) ∷ [];
      },
      seat.old.me.1,
    ) }
    ensures found { Finds C.count g.0 result seat.old.me.0 }
{
    table
        .shared
        .fetch_max::<Raising<C>>(seat, 1 + g.0 as usize, n)
}

/// Raises the generation of a group, and gives what it was.
pub fn raise_generation(table: &WordTable, seat: &mut TableSeat, g: GroupNo, n: u64) -> u64
    requires table { (seat.old.table_id ≡ table.now.shared.table_id)
        × (table.now.shared.table_id.words ≡ 1 + table.now.shared.key.groups) }
    requires group { (g.0 < table.now.shared.key.groups) × (0 < seat.old.me.0.parts) }
    ensures table { seat.new.table_id ≡ table.now.shared.table_id }
    ensures seen { seat.new.me ≡ (
      record (seat.old.me.0) {
        sights = seat.old.me.0.sights ++ sight_of g.0 (max result n) ∷ [];
      },
      seat.old.me.1,
    ) }
    ensures found { Finds table.now.shared.key.parts g.0 result seat.old.me.0 }
{
    raise_by::<Brand>(table, seat, g, n)
}

/// New words, all 0, and the seat with all parts.
pub fn make(alloc: Global, groups: u16, parts: u32) -> Result<(WordTable, TableSeat), OutOfMemory>
    ensures table { IfOk result (λ t. (t.1.table_id ≡ t.0.shared.table_id)
        × (t.0.shared.table_id.words ≡ 1 + groups) × (t.0.shared.key ≡ record { groups = groups; parts = parts })) }
    ensures seat { IfOk result (λ t. t.1.me ≡ (
      record {
        parts = parts;
        flying = false;
        drawn = [];
        seen = 0;
        sights = [];
      },
      [],
    )) }
{
    let zeros = vec![in alloc; 0; 1 + groups as usize]?;
    let made = Table::of_words(alloc, zeros.as_slice(), &About { groups, parts })?;
    Ok(made)
}

/// Cuts off as many parts as its parameter says.
fn split_by<C: Count>(table: &WordTable, seat: &mut TableSeat, parts: u32) -> TableSeat
    requires count { parts ≡ C.count }
    requires table { (seat.old.table_id ≡ table.now.shared.table_id)
        × (table.now.shared.table_id.words ≡ 1 + table.now.shared.key.groups) }
    requires parts { (seat.old.me.0.flying ≡ false) × (0 < parts) × (parts < seat.old.me.0.parts) }
    ensures table { (seat.new.table_id ≡ table.now.shared.table_id) × (result.table_id ≡ table.now.shared.table_id) }
    ensures left { seat.new.me ≡ (record (seat.old.me.0) { parts = seat.old.me.0.parts - parts }, seat.old.me.1) }
    ensures right { result.me ≡ (record (seat.old.me.0) { parts = parts; drawn = [] }, []) }
{
    let _ = parts;
    table.shared.split_seat::<Cut<C>>(seat)
}

/// Cuts that many parts off.
pub fn split(table: &WordTable, seat: &mut TableSeat, parts: u32) -> TableSeat
    requires table { (seat.old.table_id ≡ table.now.shared.table_id)
        × (table.now.shared.table_id.words ≡ 1 + table.now.shared.key.groups) }
    requires parts { (seat.old.me.0.flying ≡ false) × (0 < parts) × (parts < seat.old.me.0.parts) }
    ensures table { (seat.new.table_id ≡ table.now.shared.table_id) × (result.table_id ≡ table.now.shared.table_id) }
    ensures left { seat.new.me ≡ (record (seat.old.me.0) { parts = seat.old.me.0.parts - parts }, seat.old.me.1) }
    ensures right { result.me ≡ (record (seat.old.me.0) { parts = parts; drawn = [] }, []) }
{
    split_by::<Brand>(table, seat, parts)
}

/// Adds the other's parts. The numbers of both differ: one more look at the serial word says so.
pub fn join_seats(table: &WordTable, seat: &mut TableSeat, other: TableSeat)
    requires table { (seat.old.table_id ≡ table.now.shared.table_id) × (other.table_id ≡ table.now.shared.table_id)
        × (table.now.shared.table_id.words ≡ 1 + table.now.shared.key.groups) }
    requires still { (seat.old.me.0.flying ≡ false) × (other.me.0.flying ≡ false) × (other.me.1 ≡ []) }
    ensures table { seat.new.table_id ≡ table.now.shared.table_id }
    ensures both { seat.new.me ≡ (
      record (seat.old.me.0) {
        parts = seat.old.me.0.parts + other.me.0.parts;
        drawn = seat.old.me.0.drawn ++ other.me.0.drawn;
        seen = max seat.old.me.0.seen other.me.0.seen;
        sights = seat.old.me.0.sights ++ other.me.0.sights;
      },
      seat.old.me.1,
    ) }
    ensures differ { AllDiffer (seat.old.me.0.drawn ++ other.me.0.drawn) }
{
    table.shared.join_seat::<Sum>(seat, other);
    let _ = table.shared.load::<Comparing>(seat, SERIAL);
}

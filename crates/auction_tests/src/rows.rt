//! Rows of the auction as bytes and as words, their ids, values of sessions, and the site.
//!
//! Bytes are written in hexadecimal, each field as a word.

use crate::words::{
    add_byte, add_hex, add_hex_bytes, add_number, add_pair, add_slice, add_text, add_word,
    byte_number, cut, expect_so, expect_words, hex_bytes, number,
};
use auction_rows::{
    AuctionRow, BidRow, CategoryRow, CounterRow, EntryRow, FeedbackRow, GivenFeedback, ItemRow,
    ItemState, NameRow, OwnItemRow, TableRow, UserRow, bid_id, categories_counter,
    category_counter, category_id, decode_row, encode_row, encode_session, entry_id, feedback_id,
    is_row, item_id, items_counter, name_id, own_item_id, session_user, site_deployment, user_id,
    users_counter,
};
use crash_base::{ComponentNo, Moment, RowId};
use deployment::Deployment;
use descriptor_text::read_descriptors;
use std::alloc::Global;
use std::process::Abort;

fn add_user(rt: &impl Abort, words: &mut String, user: &UserRow) {
    add_word(rt, words, "user");
    add_text(rt, words, user.name.as_slice());
    add_hex(rt, words, &user.salt);
    add_hex(rt, words, &user.digest);
    add_number(rt, words, u64::from(user.good));
    add_number(rt, words, u64::from(user.bad));
    add_number(rt, words, u64::from(user.items));
}

fn add_name(rt: &impl Abort, words: &mut String, name: &NameRow) {
    add_word(rt, words, "name");
    add_text(rt, words, name.name.as_slice());
    add_number(rt, words, u64::from(name.user));
}

fn add_counter(rt: &impl Abort, words: &mut String, counter: &CounterRow) {
    add_word(rt, words, "counter");
    add_number(rt, words, counter.count);
}

fn state_word(state: ItemState) -> &'static str {
    match state {
        ItemState::Running => "running",
        ItemState::Closed => "closed",
        ItemState::Sold => "sold",
    }
}

fn given_word(given: GivenFeedback) -> &'static str {
    if given.by_buyer && given.by_seller {
        "both"
    } else if given.by_buyer {
        "buyer"
    } else if given.by_seller {
        "seller"
    } else {
        "none"
    }
}

fn add_item(rt: &impl Abort, words: &mut String, item: &ItemRow) {
    add_word(rt, words, "item");
    add_word(rt, words, state_word(item.state));
    add_number(rt, words, u64::from(item.seller));
    add_number(rt, words, u64::from(item.category));
    add_number(rt, words, item.start);
    add_number(rt, words, item.buy_now);
    add_number(rt, words, item.best);
    add_number(rt, words, u64::from(item.best_bidder));
    add_number(rt, words, u64::from(item.bids));
    add_number(rt, words, item.ends.0);
    add_number(rt, words, u64::from(item.buyer));
    add_word(rt, words, given_word(item.given));
    add_text(rt, words, item.title.as_slice());
}

fn add_category(rt: &impl Abort, words: &mut String, category: &CategoryRow) {
    add_word(rt, words, "category");
    add_text(rt, words, category.name.as_slice());
}

fn add_bid(rt: &impl Abort, words: &mut String, bid: &BidRow) {
    add_word(rt, words, "bid");
    add_number(rt, words, u64::from(bid.bidder));
    add_number(rt, words, bid.amount);
    add_number(rt, words, bid.moment.0);
}

fn add_entry(rt: &impl Abort, words: &mut String, entry: &EntryRow) {
    add_word(rt, words, "entry");
    add_number(rt, words, u64::from(entry.item));
}

fn add_feedback(rt: &impl Abort, words: &mut String, feedback: &FeedbackRow) {
    add_word(rt, words, "feedback");
    add_number(rt, words, u64::from(feedback.from));
    add_number(rt, words, u64::from(feedback.item));
    add_word(rt, words, if feedback.good { "good" } else { "bad" });
    add_text(rt, words, feedback.text.as_slice());
}

fn add_own_item(rt: &impl Abort, words: &mut String, own: &OwnItemRow) {
    add_word(rt, words, "own");
    add_number(rt, words, u64::from(own.item));
}

fn add_row(rt: &impl Abort, words: &mut String, row: &AuctionRow) {
    match row {
        AuctionRow::User(user) => add_user(rt, words, user),
        AuctionRow::Name(name) => add_name(rt, words, name),
        AuctionRow::Counter(counter) => add_counter(rt, words, counter),
        AuctionRow::Item(item) => add_item(rt, words, item),
        AuctionRow::Category(category) => add_category(rt, words, category),
        AuctionRow::Bid(bid) => add_bid(rt, words, bid),
        AuctionRow::Entry(entry) => add_entry(rt, words, entry),
        AuctionRow::Feedback(feedback) => add_feedback(rt, words, feedback),
        AuctionRow::OwnItem(own) => add_own_item(rt, words, own),
    }
}

/// Adds a row, and whether it is encoded to its bytes again.
fn add_found(rt: &impl Abort, alloc: Global, words: &mut String, row: &AuctionRow, bytes: &[u8]) {
    add_row(rt, words, row);
    assert!(rt; is_row(row));
    let again = encode_row(alloc, row).expect(rt, "a row");
    expect_so(rt, again.as_slice() == bytes, "a row encoded");
}

/// Adds the row of a table that bytes spell.
fn add_decoded(rt: &impl Abort, alloc: Global, words: &mut String, table: u8, bytes: &[u8]) {
    match decode_row(alloc, table, bytes).expect(rt, "a row") {
        Some(row) => add_found(rt, alloc, words, &row, bytes),
        None => add_word(rt, words, "no"),
    }
}

/// Asserts which row of a table bytes spell.
fn expect_row(rt: &impl Abort, alloc: Global, table: u8, bytes: &[u8], want: &str, row: &str) {
    let mut words = String::new(alloc);
    add_decoded(rt, alloc, &mut words, table, bytes);
    expect_words(rt, &words, want, row);
}

/// A row is a table, after a space its bytes, and after a bar the words. With a byte more or a byte
/// less it is none.
fn expect_coded(rt: &impl Abort, alloc: Global, row: &str) {
    let (bytes, want) = cut(rt, row, '|');
    let (table, bytes) = cut(rt, bytes, ' ');
    let table = byte_number(rt, table);
    let mut bytes = hex_bytes(rt, alloc, bytes);
    expect_row(rt, alloc, table, bytes.as_slice(), want, row);
    add_byte(rt, &mut bytes, 0);
    expect_row(rt, alloc, table, bytes.as_slice(), "no", row);
    bytes.pop();
    bytes.pop();
    expect_row(rt, alloc, table, bytes.as_slice(), "no", row);
}

/// One row of each table.
const ROWS: &str = "\
1 0003616e6e 0102030405060708 000102030405060708090a0b0c0d0e0f101112131415161718191a1b1c1d1e1f \
00000005 00000002 00000009|\
user ann 0102030405060708 000102030405060708090a0b0c0d0e0f101112131415161718191a1b1c1d1e1f 5 2 9
2 0003616e6e 0000000000000007|name ann 7
3 0000000100000000|counter 4294967296
4 02 0000000000000003 0000000000000004 0000000000000064 00000000000003e8 00000000000001f4 \
0000000000000005 00000002 000000000036ee80 0000000000000006 03 00046c616d70|\
item sold 3 4 100 1000 500 5 2 3600000 6 both lamp
5 00056c616d7073|category lamps
6 0000000000000005 00000000000001f4 0000000000000bb8|bid 5 500 3000
7 0000000000000009|entry 9
8 0000000000000005 0000000000000009 01 00026f6b|feedback 5 9 good ok
9 0000000000000009|own 9";

/// Rows with the least numbers and the greatest, with no text, with texts beyond ASCII, and of each
/// state.
const EXTREMES: &str = "\
1 0000 0000000000000000 ffffffffffffffffffffffffffffffffffffffffffffffffffffffffffffffff \
ffffffff ffffffff ffffffff|\
user  0000000000000000 ffffffffffffffffffffffffffffffffffffffffffffffffffffffffffffffff \
4294967295 4294967295 4294967295
2 0002c3a9 00000000ffffffff|name \u{e9} 4294967295
3 ffffffffffffffff|counter 18446744073709551615
4 00 0000000000000000 0000000000000000 0000000000000000 0000000000000000 0000000000000000 \
0000000000000000 00000000 0000000000000000 0000000000000000 00 0000|\
item running 0 0 0 0 0 0 0 0 0 none 
4 01 00000000ffffffff 00000000ffffffff ffffffffffffffff ffffffffffffffff ffffffffffffffff \
00000000ffffffff ffffffff ffffffffffffffff 00000000ffffffff 01 0003e282ac|\
item closed 4294967295 4294967295 18446744073709551615 18446744073709551615 18446744073709551615 \
4294967295 4294967295 18446744073709551615 4294967295 buyer \u{20ac}
4 02 0000000000000001 0000000000000001 0000000000000001 0000000000000000 0000000000000001 \
0000000000000002 00000001 0000000000000001 0000000000000002 02 000161|\
item sold 1 1 1 0 1 2 1 1 2 seller a
6 00000000ffffffff ffffffffffffffff ffffffffffffffff|\
bid 4294967295 18446744073709551615 18446744073709551615
8 00000000ffffffff 00000000ffffffff 00 0000|feedback 4294967295 4294967295 bad ";

/// The fields of the row of a table in `ROWS`.
fn fields_of(rt: &impl Abort, table: &str) -> &'static str {
    let row = ROWS
        .split('\n')
        .find(|row| row.starts_with(table))
        .expect(rt, table);
    let (bytes, _) = cut(rt, row, '|');
    let (_, fields) = cut(rt, bytes, ' ');
    fields
}

/// A row is a table, the place of a field of its row in `ROWS`, and a word in place of that field.
/// Then the bytes are no row.
fn expect_none(rt: &impl Abort, alloc: Global, row: &str) {
    let (table, change) = cut(rt, row, ' ');
    let (wrong, word) = cut(rt, change, ' ');
    let wrong = number(rt, wrong);
    let mut bytes = Vec::new(alloc);
    let mut place = 0u64;
    for field in fields_of(rt, table).split(' ') {
        add_hex_bytes(rt, &mut bytes, if place == wrong { word } else { field });
        place = place.wrapping_add(1);
    }
    let table = byte_number(rt, table);
    expect_row(rt, alloc, table, bytes.as_slice(), "no", row);
}

/// Numbers of users, items and categories over 4,294,967,295; a state, feedback and a truth value over
/// the greatest; texts that are not UTF-8, or have another length.
const WRONG: &str = "\
1 0 0001ff
1 0 0002616e6e
1 0 0004616e6e
2 0 0002c328
2 1 0000000100000000
4 0 03
4 1 0000000100000000
4 2 0000000100000000
4 6 0000000100000000
4 9 0000000100000000
4 10 04
4 11 0001ff
4 11 00036c616d70
4 11 00056c616d70
5 0 0001ff
6 0 0000000100000000
7 0 0000000100000000
8 0 0000000100000000
8 1 0000000100000000
8 2 02
8 3 0003eda080
9 0 0000000100000000";

#[test]
fn rows_are_read_and_written(rt: HostRuntime) {
    for table in [ROWS, EXTREMES] {
        for row in table.split('\n') {
            expect_coded(&rt, rt.alloc(), row);
        }
    }
    for row in WRONG.split('\n') {
        expect_none(&rt, rt.alloc(), row);
    }
    for table in [0, 10, 255] {
        expect_row(&rt, rt.alloc(), table, &[0; 8], "no", "another table");
    }
}

/// Adds a text of so many letters: its length in two bytes, and the letters.
fn push_letters(rt: &impl Abort, bytes: &mut Vec<u8>, count: u16) {
    add_slice(rt, bytes, &count.to_be_bytes());
    for _ in 0..count {
        add_byte(rt, bytes, b'a');
    }
}

/// Whether the row of a table is one with so many letters for the text at this place.
fn takes_letters(rt: &impl Abort, alloc: Global, table: &str, text: u64, count: u16) -> bool {
    let mut bytes = Vec::new(alloc);
    let mut place = 0u64;
    for field in fields_of(rt, table).split(' ') {
        if place == text {
            push_letters(rt, &mut bytes, count);
        } else {
            add_hex_bytes(rt, &mut bytes, field);
        }
        place = place.wrapping_add(1);
    }
    is_decoded(rt, alloc, table, bytes.as_slice())
}

/// Whether bytes spell a row of a table.
fn is_decoded(rt: &impl Abort, alloc: Global, table: &str, bytes: &[u8]) -> bool {
    let row = decode_row(alloc, byte_number(rt, table), bytes);
    row.expect(rt, table).is_some()
}

/// Asserts how many letters the text of a table's row has at most.
fn expect_greatest(rt: &impl Abort, alloc: Global, table: &str, text: u64, count: u16) {
    expect_so(rt, takes_letters(rt, alloc, table, text, count), table);
    let more = takes_letters(rt, alloc, table, text, count.wrapping_add(1));
    expect_so(rt, !more, table);
}

/// A row of this kind is encoded to the bytes that it was decoded from.
fn expect_back<T: TableRow>(rt: &impl Abort, alloc: Global, table: &str) {
    let bytes = hex_bytes(rt, alloc, fields_of(rt, table));
    let found = T::decode(alloc, bytes.as_slice()).expect(rt, table);
    let row = found.expect(rt, table);
    let again = row.encode(alloc).expect(rt, table);
    expect_so(rt, again.as_slice() == bytes.as_slice(), table);
}

/// A row has at most 4,096 bytes.
#[test]
fn each_kind_comes_back_and_has_a_limit(rt: HostRuntime) {
    expect_greatest(&rt, rt.alloc(), "1", 0, 4042);
    expect_greatest(&rt, rt.alloc(), "2", 0, 4086);
    expect_greatest(&rt, rt.alloc(), "4", 11, 4024);
    expect_greatest(&rt, rt.alloc(), "5", 0, 4094);
    expect_greatest(&rt, rt.alloc(), "8", 3, 4077);
    expect_back::<UserRow>(&rt, rt.alloc(), "1");
    expect_back::<NameRow>(&rt, rt.alloc(), "2");
    expect_back::<CounterRow>(&rt, rt.alloc(), "3");
    expect_back::<ItemRow>(&rt, rt.alloc(), "4");
    expect_back::<CategoryRow>(&rt, rt.alloc(), "5");
    expect_back::<BidRow>(&rt, rt.alloc(), "6");
    expect_back::<EntryRow>(&rt, rt.alloc(), "7");
    expect_back::<FeedbackRow>(&rt, rt.alloc(), "8");
    expect_back::<OwnItemRow>(&rt, rt.alloc(), "9");
}

fn expect_id(rt: &impl Abort, id: RowId, table: u8, key: u64) {
    expect_so(rt, id.table == table && id.key == key, "an id");
}

/// Names stand under their digest: SHA-256 of `abc` begins with ba7816bf8f01cfea, and that of no bytes with
/// e3b0c44298fc1c14. Each byte of a name counts, to the last one of the longest, and a capital is another letter.
#[test]
fn ids_are_made_of_digests_and_of_numbers(rt: HostRuntime) {
    expect_id(&rt, name_id(b"abc"), 2, 0xba78_16bf_8f01_cfea);
    expect_id(&rt, name_id(b""), 2, 0xe3b0_c442_98fc_1c14);
    expect_id(&rt, name_id(b"ann"), 2, 0x4991_5e0d_7d4b_402e);
    expect_id(&rt, name_id(b"Ann"), 2, 0x1723_9b6e_2501_1033);
    expect_id(
        &rt,
        name_id(b"abcdefghijklmnopqrstuvwx"),
        2,
        0x93b0_cabf_8668_e0c5,
    );
    expect_id(
        &rt,
        name_id(b"abcdefghijklmnopqrstuvwy"),
        2,
        0xabc7_1131_a7ce_d50d,
    );
    expect_id(&rt, user_id(7), 1, 7);
    expect_id(&rt, users_counter(), 3, 1);
    expect_id(&rt, items_counter(), 3, 2);
    expect_id(&rt, categories_counter(), 3, 3);
    expect_id(&rt, category_counter(5), 3, 0x1_0000_0005);
    expect_id(&rt, item_id(u32::MAX), 4, 0xffff_ffff);
    expect_id(&rt, category_id(5), 5, 5);
    expect_id(&rt, bid_id(3, 2), 6, 0x30_0002);
    expect_id(&rt, entry_id(u32::MAX, u32::MAX), 7, u64::MAX);
    expect_id(&rt, feedback_id(3, 2), 8, 0x30_0002);
    expect_id(&rt, own_item_id(3, 2), 9, 0x3_0000_0002);
}

/// A row is the bytes of a value, and after a bar the user.
const SESSIONS: &str = "\
0000000000000007 000000000036ee80|7
00000000ffffffff ffffffffffffffff|4294967295
0000000000000000 0000000000000001|0
0000000100000000 0000000000000001|0
ffffffffffffffff 0000000000000001|0
0000000000000007 000000000036ee|0
0000000000000007 000000000036ee8000|0
0000000000000007|0
|0";

fn expect_user(rt: &impl Abort, alloc: Global, row: &str) {
    let (value, user) = cut(rt, row, '|');
    let value = hex_bytes(rt, alloc, value);
    let found = session_user(value.as_slice());
    expect_so(rt, u64::from(found) == number(rt, user), row);
}

fn expect_session(rt: &impl Abort, alloc: Global) {
    let mut words = String::new(alloc);
    let value = encode_session(alloc, 7, Moment(3_600_000)).expect(rt, "a value");
    add_hex(rt, &mut words, value.as_slice());
    expect_words(rt, &words, "0000000000000007000000000036ee80", "a session");
}

#[test]
fn sessions_tell_their_user(rt: HostRuntime) {
    for row in SESSIONS.split('\n') {
        expect_user(&rt, rt.alloc(), row);
    }
    expect_session(&rt, rt.alloc());
}

/// Adds each component with its group and its methods, of which the idempotent ones have a mark.
fn add_components(rt: &impl Abort, words: &mut String, deployment: &Deployment) {
    for number in 0..deployment.count() {
        let c = &deployment.parts().components.as_slice()[number as usize];
        let group = deployment.group_of(ComponentNo(number));
        add_text(rt, words, c.name.as_slice());
        add_number(rt, words, u64::from(group.0));
        for method in c.methods.as_slice() {
            add_text(rt, words, method.name.as_slice());
            add_word(rt, words, if method.idempotent { "again" } else { "once" });
        }
    }
}

/// Adds each reference and each table.
fn add_links(rt: &impl Abort, words: &mut String, deployment: &Deployment) {
    for r in deployment.parts().references.as_slice() {
        let sign = if r.hard { "-" } else { "~" };
        add_pair(rt, words, u64::from(r.from.0), sign, u64::from(r.to.0));
    }
    for t in deployment.parts().tables.as_slice() {
        add_pair(rt, words, u64::from(t.table), "=", u64::from(t.owner.0));
    }
}

fn expect_site(rt: &impl Abort, alloc: Global, deployment: &Deployment) {
    let mut words = String::new(alloc);
    add_components(rt, &mut words, deployment);
    add_links(rt, &mut words, deployment);
    expect_words(rt, &words, SITE, "the site");
}

/// The components with their groups and methods, the references, of which hard ones have a hyphen, and
/// the owners of the tables.
const SITE: &str = "\
Web 0 call again Users 1 call again Numbers 2 call again Items 3 call again \
Categories 4 call again Bids 3 call again Purchases 3 call again buy once Feedback 1 call again \
0~1 0~2 0~3 0~4 0~5 0~6 0~7 5-3 6-3 7-1 7~3 \
1=1 2=1 3=2 4=3 7=3 9=3 5=4 6=5 8=7";

/// The descriptors of `examples/shop.toml`.
const DESCRIPTORS: &str =
    "# The auction site: eight components, what each needs of the others, and the tables that each owns.
# `crash groups` shows which of them are rebooted together: those that a chain of `hard` joins.

[[component]]
name = \"Web\"
soft = [\"Users\", \"Numbers\", \"Items\", \"Categories\", \"Bids\", \"Purchases\", \"Feedback\"]

[[component]]
name = \"Users\"
tables = [1, 2]

[[component]]
name = \"Numbers\"
tables = [3]

[[component]]
name = \"Items\"
tables = [4, 7, 9]

[[component]]
name = \"Categories\"
tables = [5]

[[component]]
name = \"Bids\"
hard = [\"Items\"]
tables = [6]

# Buying twice is not buying once, so `buy` may not be called again.
[[component]]
name = \"Purchases\"
hard = [\"Items\"]
methods = [
    { name = \"call\", idempotent = true },
    { name = \"buy\", idempotent = false },
]

[[component]]
name = \"Feedback\"
hard = [\"Users\"]
soft = [\"Items\"]
tables = [8]
";

/// The deployment of the operator's text is that of the program.
#[test]
fn the_descriptors_are_the_site(rt: HostRuntime) {
    let read = read_descriptors(rt.alloc(), DESCRIPTORS.as_bytes());
    match read {
        Ok(deployment) => expect_site(&rt, rt.alloc(), &deployment),
        Err(_) => panic!(rt; "the descriptors are refused"),
    }
    let site = site_deployment(rt.alloc()).expect(&rt, "the site");
    expect_site(&rt, rt.alloc(), &site);
}

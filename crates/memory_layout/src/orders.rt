// The order records of a desk: two words each, ascending by id, and their count. They stand in a region of twice their number, so that an
// order that joins or leaves moves the records on the shorter side of it, where the region has room there. What writes takes the bytes, and
// asks `Records` of them (memory.rt says why it is no type).
#![tactic(auto, using(crate::proofs::Lengths::records_read), unfolding(ledger::specs::Records::order_at, ledger::specs::Records::order_of))]

ghost use Rattle.std.specs.Prelude.{◌≡◌, ◌+◌, ◌≤◌, ◌<◌, length, set, take};
ghost use Rattle.std.specs.Simd.{first_chunks};
ghost use Rattle.words.specs.Words.{word_at};
ghost use Rattle.ledger.specs.Records.{order_of, orders_of};
ghost use Rattle.book.specs.OpenOrders.{insert};
ghost use Rattle.memory_layout.specs.Layout.{memory_bytes, count_word};
ghost use Rattle.memory_layout.specs.View.{first_of, records_of, open_orders};
ghost use Rattle.memory_layout.specs.Stores.{order_in, records_in, put_order, put_orders, store_from, joined_first, left_first, RoomFor};
ghost use Rattle.memory_layout.specs.Stores.{Records};
ghost use Rattle.memory_layout.specs.Stores.{rank, without};

use crate::memory::Memory;
use crate::table::{COUNT, FIRST, ORDERS};
use ledger::detail::Detail;
use ledger::records::{Record, detail_of, id_of};
use std::marker::Model;
use words::{set_word, word, words_copied, words_down, words_up};

// The order that an accepted event names: of a NEW, the detail of the order that it enters and the place where it joins; of a REPLACE,
// CANCEL or FILL, the open order's detail as it stands, and its place.
#[derive(Clone, Copy)]
pub struct Named {
    pub place: usize,
    pub detail: Detail,
}

impl Named {
    // For an event that names no order: whether it names one its kind says, where `work` takes the event apart, and an option would say
    // it again.
    pub fn none() -> Named
        ensures { (result.place ≡ 0) × (result.detail.0 ≡ 0) }
    {
        Named {
            place: 0,
            detail: Detail(0),
        }
    }
}

impl<'a> Memory<'a> {
    // How many open orders there are.
    pub fn count(&self) -> usize
        ensures { result ≡ length (open_orders self.now) }
    {
        word(self.bytes, COUNT) as usize
    }

    // How many records of the region stand before those in use.
    pub fn first_record(&self) -> usize
        ensures { result ≡ first_of self.now }
    {
        word(self.bytes, FIRST) as usize
    }
}

// The order records of a memory, sound or not: they are in their region, and at most 256 are in use.
#[derive(Drop)]
pub struct OrderRecords<'a> {
    pub memory: Memory<'a>,
}

// A clause sees the memory.
impl<'a> Model for OrderRecords<'a> {
    ghost use Rattle.std.specs.Prelude.{List, ℕ};
    ghost use Rattle.memory_layout.specs.Stores.{Records};

    ghost Value = { List ℕ };

    ghost view = { λ orders. orders.memory };

    ghost invariant = { λ orders. Records orders.memory };
}

impl<'a> OrderRecords<'a> {
    // The 256 records of the region from the first in use on.
    pub fn region(&self) -> &'a [Record]
        ensures records { result.now ≡ first_chunks 16 256 (records_of self.now) }
        ensures length { length result.now ≡ 256 }
    {
        let first = ORDERS + self.memory.first_record() * 2;
        self.memory.words(first, 512).as_chunks::<16>().0
    }

    // The records of the open orders.
    pub fn records(&self) -> &'a [Record]
        ensures orders { orders_of result.now ≡ open_orders self.now }
        ensures bytes { result.now ≡ take (word_at self.now count_word) (first_chunks 16 256 (records_of self.now)) }
        ensures few { length result.now ≤ 256 }
    {
        &self.region()[..self.memory.count()]
    }

    // The id and the detail of the open order at place `p`.
    pub fn id_at(&self, p: usize) -> u64
        requires { p < 256 }
        ensures { result ≡ (order_in self.now p).id }
    {
        id_of(&self.region()[p])
    }

    pub fn detail_at(&self, p: usize) -> Detail
        requires { p < 256 }
        ensures { order_of (order_in self.now p).id result.0 ≡ order_in self.now p }
    {
        detail_of(&self.region()[p])
    }
}

// Makes the order of that id and detail the one in record `at` of the region.
#[tactic(auto, using(crate::proofs::OrderRecords::record_stored))]
fn put_order(m: &mut [u8], at: usize, id: u64, w: Detail)
    requires { (memory_bytes ≤ length m.old) × (at < 512) }
    ensures { m.new ≡ put_order m.old at (order_of id w.0) }
{
    let k = ORDERS + at * 2;
    set_word(m, k, id);
    set_word(m, k + 1, w.0);
}

// Moves the `n` records from record `at` on one record up. Up, down and copied say each in its own clause which records move where.
#[tactic(auto, using(crate::proofs::Shifting::moved))]
fn move_up(m: &mut [u8], at: usize, n: usize)
    requires { (memory_bytes ≤ length m.old) × (at + n < 512) }
    ensures { m.new ≡ put_orders m.old (at + 1) (records_in m.old at n) }
{
    words_up(m, ORDERS + at * 2, 2, n * 2);
}

// Moves the `n` records behind record `at` one record down.
#[tactic(auto, using(crate::proofs::Shifting::moved))]
fn move_down(m: &mut [u8], at: usize, n: usize)
    requires { (memory_bytes ≤ length m.old) × (at + n < 512) }
    ensures { m.new ≡ put_orders m.old at (records_in m.old (at + 1) n) }
{
    words_down(m, ORDERS + at * 2, 2, n * 2);
}

// Copies the `n` records from record `from` on to record `to` and after it, which are lower.
#[tactic(auto, using(crate::proofs::Shifting::moved))]
fn copy_down(m: &mut [u8], from: usize, to: usize, n: usize)
    requires { (memory_bytes ≤ length m.old) × (to ≤ from) × (from + n ≤ 512) }
    ensures { m.new ≡ put_orders m.old to (records_in m.old from n) }
{
    words_copied(m, ORDERS + from * 2, ORDERS + to * 2, n * 2);
}

// Makes room for an order at place `p` of `n`, and tells where the first record then stands.
fn make_room(m: &mut [u8], p: usize, n: usize) -> usize
    requires { Records m.old × (n ≡ word_at m.old count_word) × (p ≤ n) × (n < 256) }
    ensures first { result ≡ joined_first m.old p }
    ensures room { RoomFor m.old m.new result p }
{
    let first = word(m, FIRST) as usize;
    if p * 2 < n && 0 < first {
        move_down(m, first - 1, p);
        return first - 1;
    }
    if first == 256 {
        copy_down(m, 256, 0, p);
        copy_down(m, 256 + p, p + 1, n - p);
        return 0;
    }
    move_up(m, first + p, n - p);
    first
}

// Closes the gap that the order at place `p` of `n` leaves, and tells where the first record then stands.
fn close_gap(m: &mut [u8], p: usize, n: usize) -> usize
    requires { Records m.old × (n ≡ word_at m.old count_word) × (p < n) }
    ensures first { result ≡ left_first m.old p }
    ensures left { m.new ≡ put_orders m.old result (without p (open_orders m.old)) }
{
    let first = word(m, FIRST) as usize;
    if p * 2 < n && first < 256 {
        move_up(m, first, p);
        return first + 1;
    }
    move_down(m, first + p, n - (p + 1));
    first
}

// The order of that id and detail joins at place `p`, before the first larger id.
pub fn insert_order(m: &mut [u8], p: usize, id: u64, w: Detail)
    requires { Records m.old × (word_at m.old count_word < 256) × (p ≡ rank id (open_orders m.old)) }
    ensures { m.new ≡ store_from m.old (joined_first m.old p)
        (insert (order_of id w.0) (open_orders m.old)) }
{
    let n = word(m, COUNT) as usize;
    let first = make_room(m, p, n);
    put_order(m, first + p, id, w);
    set_word(m, FIRST, first as u64);
    set_word(m, COUNT, (n + 1) as u64);
}

// The order at place `p` leaves.
pub fn remove_order(m: &mut [u8], p: usize)
    requires { Records m.old × (p < word_at m.old count_word) }
    ensures { m.new ≡ store_from m.old (left_first m.old p) (without p (open_orders m.old)) }
{
    let n = word(m, COUNT) as usize;
    let first = close_gap(m, p, n);
    set_word(m, FIRST, first as u64);
    set_word(m, COUNT, (n - 1) as u64);
}

// The order at place `p` becomes that of the id and the detail.
pub fn replace_order(m: &mut [u8], p: usize, id: u64, w: Detail)
    requires { Records m.old × (p < word_at m.old count_word) }
    ensures { m.new ≡ store_from m.old (first_of m.old)
        (set (open_orders m.old) p (order_of id w.0)) }
{
    put_order(m, word(m, FIRST) as usize + p, id, w);
}

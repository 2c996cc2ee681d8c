// Whether a right is held over an element, and what lacks for it: in each class of the element some association must give it.
#![tactic(auto)]

ghost use Rattle.std.specs.Prelude.{◌≡◌, true, false, ◌+◌, ◌*◌, ◌/◌, ◌≤◌, ◌<◌, length};
ghost use Rattle.model.specs.Contain.{contained};
ghost use Rattle.model.specs.Index.{bit_at};
ghost use Rattle.table.specs.Layout.{association_count};
ghost use Rattle.table.specs.View.{policy_of};
ghost use Rattle.table.specs.Facts.{Table};
ghost use Rattle.rule.specs.Sight.{seen};
ghost use Rattle.held.specs.Lacking.{lack_of, lack_by, as_holding, sight, Rows, permits};
ghost use Rattle.held.specs.Giving.{GivenMarks, GivenBits};
ghost use Rattle.held.specs.Passing.{zero_byte, zero_bytes, any_class, NextClass};

use rule::{Asking, Climbed, Indexed, Sight};

// Whether a right is held over an element, or what lacks.
#[derive(Clone, Copy)]
pub enum Holding {
    Held,
    // The element has no class.
    NoClass,
    // No association gives it in this class of the element, the lowest such.
    LackedIn(u32),
}

// What is so before a class of the element is met.
const UNMET: Holding = Holding::NoClass;

// Whether the byte of row x in which the bit of y stands is zero, as it is where the bytes do not reach.
#[tactic(auto, using(crate::proofs::Passing::zero_past, crate::proofs::Passing::zero_read))]
fn is_zero_byte(rows: &[u8], x: u32, y: u32) -> bool
    ensures { result ≡ zero_byte rows.now x y }
{
    let place = 64 * (x as usize) + (y / 8) as usize;
    if rows.len() <= place {
        return true;
    }
    rows[place] == 0
}

// Whether the word of one of the eight ids from `from` on is that of a class. No early exit: the eight are looked at together.
#[tactic(auto, using(crate::proofs::Eights::class_none, crate::proofs::Eights::class_more, crate::proofs::Eights::class_all))]
fn has_class(mem: &[u32], from: u32) -> bool
    requires table { Table mem.now }
    requires from_bound { from ≤ 504 }
    ensures { result ≡ any_class mem.now from 8 }
{
    let mut some = false;
    for k in 0..8 {
        some |= mem[table::KINDS + from as usize + k] == 5;
    }
    some
}

// The least class of the element of row x from d on, below the end of the byte in which the bit of d stands.
fn class_in_byte(mem: &[u32], rows: &[u8], x: u32, d: u32, end: u32) -> Option<u32>
    requires table { Table mem.now }
    requires end_value { end ≡ d / 8 * 8 + 8 }
    requires end_bound { end ≤ 512 }
    ensures { NextClass mem.now rows.now x d end result }
{
    if is_zero_byte(rows, x, d) || !has_class(mem, end - 8) {
        return None;
    }
    (d..end).find(|y| rule::is_class_of(mem, &Indexed { rows }, x, *y))
}

// Whether the eight bytes of row x among which the bit of y stands are all there and all zero.
#[tactic(auto, using(crate::proofs::Eights::zeros_past, crate::proofs::Eights::zeros_none, crate::proofs::Eights::zeros_more, crate::proofs::Eights::zeros_all))]
fn are_zero_bytes(rows: &[u8], x: u32, y: u32) -> bool
    ensures { result ≡ zero_bytes rows.now x y }
{
    let from = 64 * (x as usize) + 8 * (y / 64) as usize;
    if rows.len() < from + 8 {
        return false;
    }
    let mut sum = 0;
    for i in 0..8 {
        sum += u32::from(rows[from + i]);
    }
    sum == 0
}

// The least class of the element of row x from d on, below the end of the eight bytes among which the bit of d stands. A byte without a bit, or whose
// ids are of no class, is passed by.
#[tactic(auto, using(crate::proofs::Passing::bytes_start, crate::proofs::Passing::byte_found, crate::proofs::Passing::byte_more, crate::proofs::Passing::parts_end))]
fn class_in_bytes(mem: &[u32], rows: &[u8], x: u32, d: u32, end: u32) -> Option<u32>
    requires table { Table mem.now }
    requires end_value { end ≡ d / 64 * 64 + 64 }
    requires end_bound { end ≤ 512 }
    ensures { NextClass mem.now rows.now x d end result }
{
    if are_zero_bytes(rows, x, d) {
        return None;
    }
    let mut c = d;
    // A while: the first step may begin within a byte.
    while c < end {
        let stop = c / 8 * 8 + 8;
        if let Some(y) = class_in_byte(mem, rows, x, c, stop) {
            return Some(y);
        }
        c = stop;
    }
    None
}

// The least class of the element of row x from c on: eight bytes without a bit are passed by.
pub fn next_class(mem: &[u32], rows: &[u8], x: u32, c: u32) -> Option<u32>
    requires table { Table mem.now }
    requires c_bound { c ≤ 512 }
    ensures { NextClass mem.now rows.now x c 512 result }
{
    let mut d = c;
    // A while: the first step may begin within eight bytes.
    while d < 512 {
        let end = d / 64 * 64 + 64;
        if let Some(y) = class_in_bytes(mem, rows, x, d, end) {
            return Some(y);
        }
        d = end;
    }
    None
}

// Marks the classes in which association i gives the right: climbs on from its target.
#[tactic(auto, using(crate::proofs::Associations::marks_kept))]
fn give_by_climb(
    mem: &[u32],
    rows: &[u8],
    q: Asking,
    i: usize,
    given: &mut [u8; 512],
    queue: &mut [u32; 512],
    tail: usize,
) -> usize
    requires table { Table mem.now }
    requires i_bound { i < association_count mem.now }
    requires right_bound { q.right < 32 }
    requires given_marks { GivenMarks mem.now rows.now q i given.old queue.old tail }
    ensures { GivenMarks mem.now rows.now q (i + 1) given.new queue.new result }
{
    if !rule::is_offered(mem, &Climbed { rows }, q, i) {
        return tail;
    }
    let target = table::target_at(mem, i);
    climb::climb_on(mem, target, given, queue, tail)
}

// What lacks for the right to be held, by climbing: the associations are gone through once, as far as the classes of the element need them, and
// what their targets are within is climbed once.
#[tactic(auto, using(crate::proofs::Turns::marked_next, crate::proofs::Turns::marked_still, crate::proofs::Turns::marked_more))]
fn lack_by_climb(mem: &[u32], rows: &[u8], q: Asking) -> Holding
    requires table { Table mem.now }
    requires right_bound { q.right < 32 }
    ensures { result ≡ as_holding (lack_of (seen rows.now false q.by) (seen rows.now false q.over) (contained (policy_of mem.now)) (policy_of mem.now) q.right) }
{
    let mut associations = 0..table::association_count(mem);
    let mut given = [0u8; 512];
    let mut queue = [0u32; 512];
    let mut tail = 0;
    let mut lacked = UNMET;
    let mut from = 1;
    'classes: while let Some(c) = next_class(mem, rows, q.over, from) {
        // A while: the associations go on where the class before left them.
        while given[c as usize] == 0 {
            let Some(i) = associations.next() else {
                lacked = Holding::LackedIn(c);
                break 'classes;
            };
            tail = give_by_climb(mem, rows, q, i, &mut given, &mut queue, tail);
        }
        lacked = Holding::Held;
        from = c + 1;
    }
    lacked
}

// Marks the classes in which association i gives the right: the row of its target.
#[tactic(auto, using(crate::proofs::Associations::bits_kept, crate::proofs::Associations::bits_joined))]
fn give_by_index(mem: &[u32], idx: &[u8], q: Asking, i: usize, given: &mut [u8])
    requires table { Table mem.now }
    requires idx_len { length idx.now ≡ 32768 }
    requires i_bound { i < association_count mem.now }
    requires right_bound { q.right < 32 }
    requires given_bits { GivenBits mem.now idx.now q i given.old }
    ensures { GivenBits mem.now idx.now q (i + 1) given.new }
{
    if !rule::is_offered(mem, &Indexed { rows: idx }, q, i) {
        return;
    }
    let target = table::target_at(mem, i);
    index::join_row(idx, target, given);
}

// What lacks for the right to be held, by the bits of an index. Not one function with that by climbing: what was given is kept as bits here, as
// marks with a queue there, and the bits of one row are joined where the other climbs on.
#[tactic(auto, using(crate::proofs::Turns::bit_next, crate::proofs::Turns::bit_still, crate::proofs::Turns::bit_more, crate::proofs::Turns::bit_lacks))]
fn lack_by_index(mem: &[u32], idx: &[u8], q: Asking) -> Holding
    requires table { Table mem.now }
    requires idx_len { length idx.now ≡ 32768 }
    requires right_bound { q.right < 32 }
    ensures { result ≡ as_holding (lack_of (seen idx.now true q.by) (seen idx.now true q.over) (bit_at idx.now) (policy_of mem.now) q.right) }
{
    let mut associations = 0..table::association_count(mem);
    let mut given = [0u8; 64];
    let mut lacked = UNMET;
    let mut from = 1;
    'classes: while let Some(c) = next_class(mem, idx, q.over, from) {
        // A while: the associations go on where the class before left them.
        while !index::bit(&given, 0, c) {
            let Some(i) = associations.next() else {
                lacked = Holding::LackedIn(c);
                break 'classes;
            };
            give_by_index(mem, idx, q, i, &mut given);
        }
        lacked = Holding::Held;
        from = c + 1;
    }
    lacked
}

// Rows that tell what lacks for a right.
pub trait Lacking: Sight {
    // What lacks for the right to be held.
    fn lack(&self, mem: &[u32], q: Asking) -> Holding
        requires table { Table mem.now }
        requires right_bound { q.right < 32 }
        requires rows { Rows mem.now (Self.rows self.now) (Self.indexed self.now) q }
        ensures { result ≡ as_holding (lack_by (sight mem.now (Self.rows self.now) (Self.indexed self.now)) (policy_of mem.now) q.user q.right q.element) };
}

impl Lacking for Indexed<'_> {
    fn lack(&self, mem: &[u32], q: Asking) -> Holding {
        lack_by_index(mem, self.rows, q)
    }
}

impl Lacking for Climbed<'_> {
    fn lack(&self, mem: &[u32], q: Asking) -> Holding {
        lack_by_climb(mem, self.rows, q)
    }
}

// Whether the right is held and not restricted.
#[tactic(auto, using(crate::proofs::Sighted::permits_rest, crate::proofs::Sighted::says, crate::proofs::Sighted::permits_lacking))]
pub fn is_permitted<S: Lacking>(mem: &[u32], rows: &S, q: Asking) -> bool
    requires table { Table mem.now }
    requires right_bound { q.right < 32 }
    requires rows { Rows mem.now (S.rows rows.now) (S.indexed rows.now) q }
    ensures { result ≡ permits (sight mem.now (S.rows rows.now) (S.indexed rows.now)) (policy_of mem.now) q.process q.user q.right q.element }
{
    match rows.lack(mem, q) {
        Holding::Held => !rule::is_restricted(mem, rows, q),
        Holding::NoClass | Holding::LackedIn(_) => false,
    }
}

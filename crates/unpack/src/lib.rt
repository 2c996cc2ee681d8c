// The records of an image, laid into the words of a table.
#![tactic(auto)]

ghost use Rattle.std.specs.Prelude.{◌≡◌, true, ◌+◌, ◌*◌, ◌/◌, ◌%◌, ◌^◌, ◌≤◌, length, drop};
ghost use Rattle.model.specs.Bits.{bits_of};
ghost use Rattle.model.specs.Image.{read_assignment, read_association, read_prohibition, read_group, policy_in};
ghost use Rattle.group.specs.Group.{laid};
ghost use Rattle.table.specs.View.{empty_table};
ghost use Rattle.store.specs.ProhibitionWords.{prohibition_record};
ghost use Rattle.measure.specs.Places.{Reaches, Uncut, behind};
ghost use Rattle.screen.specs.Stowable.{lists_short, all_short, stowable};
ghost use Rattle.unpack.specs.Words.{numbers, by_id, with_assignments, with_associations, with_prohibitions, table_of};

use bits::Cursor;
use table::{
    ASSIGNMENT_COUNTER, ASSIGNMENTS, ASSOCIATION_COUNTER, ASSOCIATIONS, KINDS, PROHIBITION_COUNTER,
    PROHIBITIONS, USERS,
};

// The n records at a place, an id and a value of so many bits each: each value into its id's word, of the words from `from` on.
#[tactic(auto, using(crate::proofs::ById::placing_more, crate::proofs::ById::placing_all))]
fn unpack_by_id(
    s: &[u8],
    at: usize,
    n: usize,
    id_bits: u32,
    value_bits: u32,
    mem: &mut [u32],
    from: usize,
)
    requires le_id_bits { 1 ≤ id_bits }
    requires id_bits_bound { id_bits ≤ 9 }
    requires le_value_bits { 1 ≤ value_bits }
    requires value_bits_bound { value_bits ≤ 9 }
    requires reaches { Reaches s.now at ((id_bits + value_bits) * n) }
    requires room { from + 2 ^ id_bits ≤ length mem.old }
    ensures { mem.new ≡ by_id id_bits value_bits from n (drop at (bits_of s.now)) mem.old }
{
    let mut next = Cursor { at };
    for _ in 0..n {
        let id = next.take(s, id_bits);
        let value = id.next.take(s, value_bits);
        mem[from + id.value as usize] = value.value;
        next = value.next;
    }
}

// The n numbers of `width` bits at a place, each into a word of its own from `from` on.
#[tactic(auto, using(crate::proofs::Numbers::numbers_all))]
fn unpack_numbers(s: &[u8], at: usize, n: usize, width: u32, mem: &mut [u32], from: usize)
    requires le_width { 1 ≤ width }
    requires width_bound { width ≤ 32 }
    requires reaches { Reaches s.now at (width * n) }
    requires room { from + n ≤ length mem.old }
    ensures { mem.new ≡ laid from (numbers width n (drop at (bits_of s.now))) mem.old }
{
    let mut next = Cursor { at };
    for i in 0..n {
        let number = next.take(s, width);
        mem[from + i] = number.value;
        next = number.next;
    }
}

// The n assignments at a place: the 18 bits of each are its word.
fn unpack_assignments(s: &[u8], at: usize, n: usize, mem: &mut [u32])
    requires n_bound { n ≤ 2000 }
    requires reaches { Reaches s.now at (18 * n) }
    requires mem_len { length mem.old ≡ 8192 }
    ensures { mem.new ≡ with_assignments (read_group read_assignment n (drop at (bits_of s.now))).value mem.old }
{
    unpack_numbers(s, at, n, 18, mem, ASSIGNMENTS);
    mem[ASSIGNMENT_COUNTER] = n as u32;
}

// The n associations at a place: 18 bits are the first word of each, the rights the second.
#[tactic(auto, using(crate::proofs::Turns::associations_none, crate::proofs::Turns::associations_all))]
fn unpack_associations(s: &[u8], at: usize, n: usize, mem: &mut [u32])
    requires n_bound { n ≤ 1000 }
    requires reaches { Reaches s.now at (50 * n) }
    requires mem_len { length mem.old ≡ 8192 }
    ensures { mem.new ≡ with_associations (read_group read_association n (drop at (bits_of s.now))).value mem.old }
{
    let mut next = Cursor { at };
    for i in 0..n {
        let ends = next.take(s, 18);
        let rights = ends.next.take(s, 32);
        mem[ASSOCIATIONS + 2 * i] = ends.value;
        mem[ASSOCIATIONS + 2 * i + 1] = rights.value;
        next = rights.next;
    }
    mem[ASSOCIATION_COUNTER] = n as u32;
}

// How many ids are listed, by the two counts in one number.
fn listed(counts: u32) -> usize
    ensures { result ≡ counts / 8 % 8 + counts % 8 }
{
    (counts / 8 % 8 + counts % 8) as usize
}

// The record of the prohibition at a place: sort, subject and form are its first word, the rights its second, the counts its third.
#[tactic(auto, using(crate::proofs::Records::few_ids, crate::proofs::Records::ids_room), unfolding(measure::specs::Places::behind))]
fn prohibition_at(s: &[u8], at: usize) -> [u32; 11]
    requires reaches { Reaches s.now (behind (bits_of s.now) at 1) 0 }
    requires s_value { lists_short (read_prohibition (drop at (bits_of s.now))).value ≡ true }
    ensures { result ≡ prohibition_record (read_prohibition (drop at (bits_of s.now))).value }
{
    let mut rec = [0; 11];
    let subject = Cursor { at }.take(s, 12);
    let rights = subject.next.take(s, 32);
    let counts = rights.next.take(s, 6);
    rec[0] = subject.value;
    rec[1] = rights.value;
    rec[2] = counts.value;
    unpack_numbers(s, counts.next.at, listed(counts.value), 9, &mut rec, 3);
    rec
}

// The n prohibitions at a place, each into its eleven words.
#[tactic(auto, using(crate::proofs::Prohibitions::next_reaches, crate::proofs::Prohibitions::next_short, crate::proofs::Prohibitions::passing_all))]
fn unpack_prohibitions(s: &[u8], at: usize, n: usize, mem: &mut [u32])
    requires n_bound { n ≤ 200 }
    requires reaches { Reaches s.now (behind (bits_of s.now) at n) 0 }
    requires s_value { all_short (read_group read_prohibition n (drop at (bits_of s.now))).value ≡ true }
    requires mem_len { length mem.old ≡ 8192 }
    ensures { mem.new ≡ with_prohibitions (read_group read_prohibition n (drop at (bits_of s.now))).value mem.old }
{
    let mut p = at;
    for i in 0..n {
        let rec = prohibition_at(s, p);
        let start = PROHIBITIONS + 11 * i;
        mem[start..start + 11].copy_from_slice(&rec);
        p += measure::PROHIBITION + 9 * listed(rec[2]);
    }
    mem[PROHIBITION_COUNTER] = n as u32;
}

// The assignments, associations and prohibitions, from a place on.
fn unpack_relations(
    s: &[u8],
    at: usize,
    assignments: usize,
    associations: usize,
    prohibitions: usize,
    mem: &mut [u32],
)
    requires assignments_bound { assignments ≤ 2000 }
    requires associations_bound { associations ≤ 1000 }
    requires prohibitions_bound { prohibitions ≤ 200 }
    requires reaches { Reaches s.now (behind (bits_of s.now) (at + 18 * assignments + 50 * associations) prohibitions) 0 }
    requires s_value { all_short (read_group read_prohibition prohibitions (drop (at + 18 * assignments + 50 * associations) (bits_of s.now))).value ≡ true }
    requires mem_len { length mem.old ≡ 8192 }
    ensures { mem.new ≡ with_prohibitions (read_group read_prohibition prohibitions (drop (at + 18 * assignments + 50 * associations) (bits_of s.now))).value (with_associations (read_group read_association associations (drop (at + 18 * assignments) (bits_of s.now))).value (with_assignments (read_group read_assignment assignments (drop at (bits_of s.now))).value mem.old)) }
{
    let second = at + measure::ASSIGNMENT * assignments;
    let third = second + measure::ASSOCIATION * associations;
    unpack_assignments(s, at, assignments, mem);
    unpack_associations(s, second, associations, mem);
    unpack_prohibitions(s, third, prohibitions, mem);
}

// The image's records, laid into the words of the empty table.
#[tactic(auto, using(screen::proofs::Answers::head_reached, screen::proofs::Answers::elements_reached, crate::proofs::Whole::empty_size, screen::proofs::Answers::processes_reached, crate::proofs::Whole::few_assignments, crate::proofs::Whole::few_associations, crate::proofs::Whole::few_prohibitions, screen::proofs::Answers::prohibitions_reached, crate::proofs::Whole::lists_short_lem))]
pub fn unpack(s: &[u8], mem: &mut [u32])
    requires uncut { Uncut s.now }
    requires s_value { stowable (policy_in s.now) ≡ true }
    requires mem_value { mem.old ≡ empty_table }
    ensures { mem.new ≡ table_of (policy_in s.now) }
{
    let h = measure::head(s);
    let relations = measure::HEAD + measure::ELEMENT * h.elements;
    let prohibitions = relations
        + measure::ASSIGNMENT * h.assignments
        + measure::ASSOCIATION * h.associations;
    let processes = measure::behind(s, prohibitions, h.prohibitions);
    unpack_by_id(s, measure::HEAD, h.elements, 9, 3, mem, KINDS);
    unpack_by_id(s, processes, h.processes, 8, 9, mem, USERS);
    unpack_relations(
        s,
        relations,
        h.assignments,
        h.associations,
        h.prohibitions,
        mem,
    );
}

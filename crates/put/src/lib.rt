// The groups of a table, written into lent bytes as an image writes them.
#![tactic(auto)]

ghost use Rattle.std.specs.Prelude.{◌+◌, ◌*◌, ◌≤◌, ◌<◌, length};
ghost use Rattle.model.specs.Image.{element_bits, assignment_bits, association_bits, prohibition_bits, process_bits, group_bits};
ghost use Rattle.table.specs.Layout.{prohibition_count};
ghost use Rattle.table.specs.View.{policy_of, prohibition_at};
ghost use Rattle.table.specs.Facts.{Table};
ghost use Rattle.measure.specs.Places.{Reaches};
ghost use Rattle.put.specs.Put.{Put, number_bits, element_bits_at, process_bits_at, limit_bits};

use bits::Cursor;
use table::{ASSIGNMENTS, ASSOCIATIONS, PROHIBITIONS};

// Writes n words from a place on, `width` low bits of each.
#[tactic(auto, using(crate::proofs::Turns::number_room))]
fn numbers(mem: &[u32], from: usize, n: usize, width: u32, out: &mut [u8], at: usize) -> usize
    requires n_in_bounds { from + n ≤ length mem.now }
    requires n_bound { n ≤ 2000 }
    requires le_width { 1 ≤ width }
    requires width_bound { width ≤ 32 }
    requires reaches { Reaches out.old at (width * n) }
    ensures { Put out.old out.new at (number_bits mem.now from n width) result }
{
    let mut c = Cursor { at };
    for word in &mem[from..from + n] {
        c = c.write(out, width, *word);
    }
    c.at
}

// Writes element x, where it is there: its id, and its kind in three bits. Answers the place behind it, as each function here does.
fn element(mem: &[u32], x: u32, out: &mut [u8], at: usize) -> usize
    requires table { Table mem.now }
    requires le_x { 1 ≤ x }
    requires x_bound { x < 512 }
    requires reaches { Reaches out.old at (length (element_bits_at mem.now x)) }
    ensures { Put out.old out.new at (element_bits_at mem.now x) result }
{
    let kind = table::kind_of(mem, x);
    if kind == 0 {
        return at;
    }
    Cursor { at }.write(out, 12, x * 8 + kind % 8).at
}

// Writes the elements.
#[tactic(auto, using(crate::proofs::Turns::elements_room))]
pub fn elements(mem: &[u32], out: &mut [u8], at: usize) -> usize
    requires table { Table mem.now }
    requires reaches { Reaches out.old at (length (group_bits element_bits (policy_of mem.now).elements)) }
    ensures { Put out.old out.new at (group_bits element_bits (policy_of mem.now).elements) result }
{
    let mut p = at;
    for x in 1..512 {
        p = element(mem, x, out, p);
    }
    p
}

// Writes process i, where it is there: its id, and its user in nine bits.
fn process(mem: &[u32], i: u32, out: &mut [u8], at: usize) -> usize
    requires table { Table mem.now }
    requires le_i { 1 ≤ i }
    requires i_bound { i < 256 }
    requires reaches { Reaches out.old at (length (process_bits_at mem.now i)) }
    ensures { Put out.old out.new at (process_bits_at mem.now i) result }
{
    let user = table::user_of(mem, i);
    if user == 0 {
        return at;
    }
    Cursor { at }.write(out, 17, i * 512 + user % 512).at
}

// Writes the processes.
#[tactic(auto, using(crate::proofs::Turns::processes_room))]
pub fn processes(mem: &[u32], out: &mut [u8], at: usize) -> usize
    requires table { Table mem.now }
    requires reaches { Reaches out.old at (length (group_bits process_bits (policy_of mem.now).processes)) }
    ensures { Put out.old out.new at (group_bits process_bits (policy_of mem.now).processes) result }
{
    let mut p = at;
    for i in 1..256 {
        p = process(mem, i, out, p);
    }
    p
}

// Writes the assignments: the low 18 bits of the word of each.
pub fn assignments(mem: &[u32], out: &mut [u8], at: usize) -> usize
    requires table { Table mem.now }
    requires reaches { Reaches out.old at (length (group_bits assignment_bits (policy_of mem.now).assignments)) }
    ensures { Put out.old out.new at (group_bits assignment_bits (policy_of mem.now).assignments) result }
{
    numbers(mem, ASSIGNMENTS, table::assignment_count(mem), 18, out, at)
}

// Writes the associations: the low 18 bits of the first word of each, and its rights.
#[tactic(auto, using(crate::proofs::Turns::association_first, crate::proofs::Turns::association_second))]
pub fn associations(mem: &[u32], out: &mut [u8], at: usize) -> usize
    requires table { Table mem.now }
    requires reaches { Reaches out.old at (length (group_bits association_bits (policy_of mem.now).associations)) }
    ensures { Put out.old out.new at (group_bits association_bits (policy_of mem.now).associations) result }
{
    let mut c = Cursor { at };
    for i in 0..table::association_count(mem) {
        c = c.write(out, 18, mem[ASSOCIATIONS + 2 * i]);
        c = c.write(out, 32, mem[ASSOCIATIONS + 2 * i + 1]);
    }
    c.at
}

// Writes the first three words of the prohibition that starts at a word: the low 12 bits of its first, its rights, its counts.
fn limits(mem: &[u32], start: usize, out: &mut [u8], at: usize) -> usize
    requires start_in_bounds { start + 3 ≤ length mem.now }
    requires reaches { Reaches out.old at 50 }
    ensures { Put out.old out.new at (limit_bits mem.now start) result }
{
    Cursor { at }
        .write(out, 12, mem[start])
        .write(out, 32, mem[start + 1])
        .write(out, 6, mem[start + 2])
        .at
}

// Writes prohibition i: its first three words, its ids.
#[tactic(auto, using(crate::proofs::Turns::prohibition_rest))]
fn prohibition(mem: &[u32], i: usize, out: &mut [u8], at: usize) -> usize
    requires table { Table mem.now }
    requires i_bound { i < prohibition_count mem.now }
    requires reaches { Reaches out.old at (length (prohibition_bits (prohibition_at mem.now i))) }
    ensures { Put out.old out.new at (prohibition_bits (prohibition_at mem.now i)) result }
{
    let start = PROHIBITIONS + 11 * i;
    let n = table::inclusion_count_at(mem, i) + table::exclusion_count_at(mem, i);
    let p = limits(mem, start, out, at);
    numbers(mem, start + 3, n, 9, out, p)
}

// Writes the prohibitions.
#[tactic(auto, using(crate::proofs::Turns::prohibitions_room))]
pub fn prohibitions(mem: &[u32], out: &mut [u8], at: usize) -> usize
    requires table { Table mem.now }
    requires reaches { Reaches out.old at (length (group_bits prohibition_bits (policy_of mem.now).prohibitions)) }
    ensures { Put out.old out.new at (group_bits prohibition_bits (policy_of mem.now).prohibitions) result }
{
    let mut p = at;
    for i in 0..table::prohibition_count(mem) {
        p = prohibition(mem, i, out, p);
    }
    p
}

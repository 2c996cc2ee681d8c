// The containment index of the table: a bit for each two elements, 1 where both are there and the one is within the other.
#![tactic(auto)]

ghost use Rattle.std.specs.Prelude.{◌≡◌, ◌<◌, length};
ghost use Rattle.model.specs.Lists.{same};
ghost use Rattle.model.specs.Index.{index_of, bit_at};
ghost use Rattle.model.specs.Calls.{build as building, is_index};
ghost use Rattle.table.specs.Layout.{assignment_count};
ghost use Rattle.table.specs.View.{policy_of, memory};
ghost use Rattle.table.specs.Facts.{Table};
ghost use Rattle.index.specs.Rows.{Added, Cleared, RowJoined};
ghost use Rattle.index.specs.Passes.{RowSeeded, Good, Stepped, Climbed, Passed, Rounded, Full, RowTidied, Tidied};
ghost use Rattle.index.specs.Answers.{left, matched};

use answer::Refusal;

// The bit of x and y: 0 where the bytes do not reach.
#[tactic(auto, using(crate::proofs::Bytes::bit_past, crate::proofs::Bytes::bit_read))]
pub fn bit(idx: &[u8], x: u32, y: u32) -> bool
    ensures { result ≡ bit_at idx.now x y }
{
    let place = 64 * (x as usize) + (y / 8) as usize;
    if idx.len() <= place {
        return false;
    }
    let byte = idx[place];
    (byte >> (7 - y % 8)) % 2 == 1
}

// Adds the bits of row x of an index to the lent row of 64 bytes.
#[tactic(auto, using(crate::proofs::Joins::joined_none, crate::proofs::Joins::joined_more, crate::proofs::Joins::joined_end), unfolding(crate::specs::Rows::both))]
pub fn join_row(idx: &[u8], x: u32, row: &mut [u8])
    requires idx_len { length idx.now ≡ 32768 }
    requires x_bound { x < 512 }
    requires row_len { length row.old ≡ 64 }
    ensures { RowJoined idx.now x 64 row.old row.new }
{
    for k in 0..64 {
        row[k] |= idx[64 * (x as usize) + k];
    }
}

// Adds row b to row a, and returns by how much the sum of the bytes grew.
#[tactic(auto, using(crate::proofs::Rows::added_none, crate::proofs::Bytes::both_more, crate::proofs::Rows::added_end), unfolding(crate::specs::Rows::both))]
fn add_row(idx: &mut [u8], a: usize, b: usize) -> u32
    requires idx_len { length idx.old ≡ 32768 }
    requires a_bound { a < 512 }
    requires b_bound { b < 512 }
    ensures { Added idx.old a b 64 result idx.new }
{
    let mut grew = 0;
    for k in 0..64 {
        let old = idx[64 * a + k];
        let new = old | idx[64 * b + k];
        idx[64 * a + k] = new;
        grew += u32::from(new - old);
    }
    grew
}

// Makes row a zero.
fn clear_row(idx: &mut [u8], a: usize)
    requires idx_len { length idx.old ≡ 32768 }
    requires a_bound { a < 512 }
    ensures { Cleared idx.old a 64 idx.new }
{
    idx[64 * a..64 * a + 64].fill(0);
}

// Makes the byte of x and x the one with just their bit, if element x is there.
#[tactic(auto, using(crate::proofs::Seeds::seed_none))]
fn seed_row(mem: &[u32], idx: &mut [u8], x: usize)
    requires table { Table mem.now }
    requires idx_len { length idx.old ≡ 32768 }
    requires x_bound { x < 512 }
    ensures { RowSeeded mem.now x idx.old idx.new }
{
    if table::kind_of(mem, x as u32) == 0 {
        return;
    }
    idx[64 * x + x / 8] = 128 >> (x % 8);
}

// Each element that is there is within itself.
#[tactic(auto, using(crate::proofs::Seeds::seeded_none, crate::proofs::Seeds::seeded_more))]
fn start(mem: &[u32], idx: &mut [u8])
    requires table { Table mem.now }
    requires idx_len { length idx.old ≡ 32768 }
    ensures { Good mem.now idx.new }
{
    idx.fill(0);
    for x in 0..512 {
        seed_row(mem, idx, x);
    }
}

// Adds the container's row to the child's, for assignment i.
fn step(mem: &[u32], idx: &mut [u8], i: usize) -> u32
    requires table { Table mem.now }
    requires good { Good mem.now idx.old }
    requires i_bound { i < assignment_count mem.now }
    ensures { Stepped mem.now i idx.old result idx.new }
{
    let word = mem[table::ASSIGNMENTS + i];
    add_row(idx, (word / 512 % 512) as usize, (word % 512) as usize)
}

// Steps over the assignments of x, unless x is seen: what is seen is done already. At most `deep` elements above one another.
#[cycle(climb_climb_from)]
fn climb(mem: &[u32], idx: &mut [u8], seen: &mut [u8], x: u32, deep: u32)
    requires table { Table mem.now }
    requires good { Good mem.now idx.old }
    requires seen_len { length seen.old ≡ 512 }
    requires x_bound { x < 512 }
    ensures { Climbed mem.now idx.old idx.new }
{
    if deep == 0 {
        return;
    }
    if seen[x as usize] == 1 {
        return;
    }
    let first = table::first_of(mem, x);
    climb_from(mem, idx, seen, x, first, deep - 1);
}

// Steps over the assignments of x, of which `first` is the first, each container's own before it, at most `deep` containers above one another.
#[cycle(climb_climb_from)]
fn climb_from(mem: &[u32], idx: &mut [u8], seen: &mut [u8], x: u32, first: usize, deep: u32)
    requires table { Table mem.now }
    requires good { Good mem.now idx.old }
    requires seen_len { length seen.old ≡ 512 }
    requires x_bound { x < 512 }
    ensures { Climbed mem.now idx.old idx.new }
{
    seen[x as usize] = 1;
    let count = mem[table::ASSIGNMENT_COUNTER] as usize;
    for i in first..count {
        let word = mem[table::ASSIGNMENTS + i];
        if word / 512 != x {
            break;
        }
        climb(mem, idx, seen, word % 512, deep);
        step(mem, idx, i);
    }
}

// Climbs from the child of assignment i, unless it is seen: in the assignments' order it is the child's first.
fn climb_at(mem: &[u32], idx: &mut [u8], seen: &mut [u8], i: usize)
    requires table { Table mem.now }
    requires good { Good mem.now idx.old }
    requires seen_len { length seen.old ≡ 512 }
    requires i_bound { i < assignment_count mem.now }
    ensures { Climbed mem.now idx.old idx.new }
{
    let child = mem[table::ASSIGNMENTS + i] / 512 % 512;
    if seen[child as usize] == 1 {
        return;
    }
    climb_from(mem, idx, seen, child, i, 511);
}

// Steps over all assignments, those of containers first: for a table without cycles, whatever its ids, nothing is left to add after it.
fn climb_all(mem: &[u32], idx: &mut [u8])
    requires table { Table mem.now }
    requires good { Good mem.now idx.old }
    ensures { Climbed mem.now idx.old idx.new }
{
    let mut seen = [0u8; 512];
    let count = mem[table::ASSIGNMENT_COUNTER] as usize;
    for i in 0..count {
        climb_at(mem, idx, &mut seen, i);
    }
}

// Steps over all assignments in their order, and returns by how much the sum of the bytes grew.
#[tactic(auto, using(crate::proofs::Rounds::passed_none, crate::proofs::Rounds::passed_end))]
fn pass(mem: &[u32], idx: &mut [u8]) -> u32
    requires table { Table mem.now }
    requires good { Good mem.now idx.old }
    ensures { Passed mem.now (assignment_count mem.now) idx.old result idx.new }
{
    let n = mem[table::ASSIGNMENT_COUNTER] as usize;
    let mut grew = 0;
    for i in 0..n {
        grew += step(mem, idx, i);
    }
    grew
}

// Climbs, then passes, and returns by how much the pass made the sum of the bytes grow.
fn climb_and_pass(mem: &[u32], idx: &mut [u8]) -> u32
    requires table { Table mem.now }
    requires good { Good mem.now idx.old }
    ensures { Rounded mem.now idx.old result idx.new }
{
    climb_all(mem, idx);
    pass(mem, idx)
}

// Climbs and passes until a pass adds nothing.
fn complete(mem: &[u32], idx: &mut [u8])
    requires table { Table mem.now }
    requires good { Good mem.now idx.old }
    ensures { Full mem.now idx.new }
{
    let mut more = climb_and_pass(mem, idx);
    // A while: it counts no index, and ends where a pass adds nothing.
    while 0 < more {
        more = climb_and_pass(mem, idx);
    }
}

// Makes row x zero if element x is not there.
#[tactic(auto, using(crate::proofs::Tidying::row_stays, crate::proofs::Tidying::row_goes))]
fn tidy_row(mem: &[u32], idx: &mut [u8], x: u32)
    requires table { Table mem.now }
    requires idx_len { length idx.old ≡ 32768 }
    requires x_bound { x < 512 }
    ensures { RowTidied mem.now x idx.old idx.new }
{
    if table::kind_of(mem, x) != 0 {
        return;
    }
    clear_row(idx, x as usize);
}

// Makes the rows of elements that are not there zero: of those, only children of assignments can have bits.
#[tactic(auto, using(crate::proofs::Tidying::tidied_none, crate::proofs::Tidying::tidied_end))]
fn tidy(mem: &[u32], idx: &mut [u8])
    requires table { Table mem.now }
    requires idx_len { length idx.old ≡ 32768 }
    ensures { Tidied mem.now (assignment_count mem.now) idx.old idx.new }
{
    let count = mem[table::ASSIGNMENT_COUNTER] as usize;
    for i in 0..count {
        tidy_row(mem, idx, mem[table::ASSIGNMENTS + i] / 512 % 512);
    }
}

// Makes the bytes the table's index.
pub fn fill(mem: &[u32], idx: &mut [u8])
    requires table { Table mem.now }
    requires idx_len { length idx.old ≡ 32768 }
    ensures { idx.new ≡ index_of (policy_of mem.now) }
{
    start(mem, idx);
    complete(mem, idx);
    tidy(mem, idx);
}

// Makes the bytes the table's index, or refuses: 1 where the memory holds no table, 2 where there are not 32,768 bytes.
pub fn build(mem: &[u32], idx: &mut [u8]) -> Result<(), Refusal>
    ensures { left result idx.new ≡ building (memory mem.now) idx.old }
{
    if !table::holds(mem) {
        return Err(Refusal::NoTable);
    }
    if idx.len() != 32768 {
        return Err(Refusal::OutOfRange);
    }
    fill(mem, idx);
    Ok(())
}

// Whether the bytes are those of the index of a table. It stands apart: compiled into a call that can end before its large local is made, clang's
// code that touches the stack for the local overwrites a register in use.
#[inline(never)]
fn is_same(mem: &[u32], idx: &[u8]) -> bool
    requires table { Table mem.now }
    requires idx_len { length idx.now ≡ 32768 }
    ensures { result ≡ same idx.now (index_of (policy_of mem.now)) }
{
    let mut fresh = [0u8; 32768];
    fill(mem, &mut fresh);
    idx == fresh.as_slice()
}

// Whether the bytes are the table's index, with the refusals of `build`.
#[tactic(auto, using(crate::proofs::Answered::match_no_table, crate::proofs::Answered::match_bad_index, table::proofs::Asked::tested))]
pub fn is_index(mem: &[u32], idx: &[u8]) -> Result<bool, Refusal>
    ensures { matched result ≡ is_index (memory mem.now) idx.now }
{
    if !table::holds(mem) {
        return Err(Refusal::NoTable);
    }
    if idx.len() != 32768 {
        return Err(Refusal::OutOfRange);
    }
    Ok(is_same(mem, idx))
}

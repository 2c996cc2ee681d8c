// Containment by chains of assignments: all that an element is within, by a breadth-first climb over the table.
#![tactic(auto)]

ghost use Rattle.std.specs.Prelude.{◌≡◌, ◌+◌, ◌*◌, ◌≤◌, ◌<◌, length};
ghost use Rattle.model.specs.Contain.{contained};
ghost use Rattle.model.specs.Calls.{contains};
ghost use Rattle.table.specs.View.{policy_of, memory};
ghost use Rattle.table.specs.Facts.{Table};
ghost use Rattle.climb.specs.Marking.{marks_of};
ghost use Rattle.climb.specs.Queued.{Container, Listed, Grown, Front, Closed, Climbed, Further, Kept, Blank, BitSet, RowMarked};
ghost use Rattle.climb.specs.Answers.{told};

use answer::Refusal;

// Marks y and appends it to the queue, unless it is marked already. Returns how many are queued then.
#[tactic(auto, using(crate::proofs::Queue::grow_none, crate::proofs::Queue::room))]
fn offer(y: u32, seen: &mut [u8; 512], queue: &mut [u32; 512], tail: usize) -> usize
    requires y_bound { y < 512 }
    requires listed { Listed seen.old queue.old tail }
    ensures { Grown (λ z. z ≡ y) seen.old queue.old tail seen.new queue.new result }
{
    let i = y as usize;
    if seen[i] == 1 {
        return tail;
    }
    seen[i] = 1;
    queue[tail] = y;
    tail + 1
}

// Offers each container of x, in order: the assignments of x stand together.
fn offer_containers(
    mem: &[u32],
    x: u32,
    seen: &mut [u8; 512],
    queue: &mut [u32; 512],
    tail: usize,
) -> usize
    requires table { Table mem.now }
    requires x_bound { x < 512 }
    requires listed { Listed seen.old queue.old tail }
    ensures { Grown (Container mem.now x) seen.old queue.old tail seen.new queue.new result }
{
    let mut t = tail;
    let n = table::assignment_count(mem);
    let first = table::first_of(mem, x);
    for i in first..n {
        if x < table::child_at(mem, i) {
            return t;
        }
        t = offer(table::container_at(mem, i), seen, queue, t);
    }
    t
}

// Takes the next element of the queue, offers its containers, and climbs on until the queue has no next one. Returns how many are queued then.
fn climb(
    mem: &[u32],
    seen: &mut [u8; 512],
    queue: &mut [u32; 512],
    head: usize,
    tail: usize,
) -> usize
    requires table { Table mem.now }
    requires front { Front mem.now seen.old queue.old head tail }
    ensures climbed { Climbed mem.now seen.old seen.new queue.new result }
    ensures kept { Kept queue.old tail queue.new result }
{
    if tail <= head {
        return tail;
    }
    let t = offer_containers(mem, queue[head], seen, queue, tail);
    climb(mem, seen, queue, head + 1, t)
}

// Marks all that x is within besides what is marked already; what was marked is not climbed from again. Returns how many are queued then.
#[tactic(auto, using(crate::proofs::Queue::kept_then))]
pub fn climb_on(
    mem: &[u32],
    x: u32,
    seen: &mut [u8; 512],
    queue: &mut [u32; 512],
    tail: usize,
) -> usize
    requires table { Table mem.now }
    requires x_bound { x < 512 }
    requires closed { Closed mem.now seen.old queue.old tail }
    ensures further { Further mem.now x seen.old seen.new queue.new result }
    ensures kept { Kept queue.old tail queue.new result }
{
    let t = offer(x, seen, queue, tail);
    climb(mem, seen, queue, tail, t)
}

// Marks all that x is within. In its caller, so that the marks are not copied.
#[inline(always)]
pub fn marks(mem: &[u32], x: u32) -> [u8; 512]
    requires table { Table mem.now }
    requires x_bound { x < 512 }
    ensures { result ≡ marks_of mem.now x }
{
    let mut seen = [0u8; 512];
    let mut queue = [0u32; 512];
    climb_on(mem, x, &mut seen, &mut queue, 0);
    seen
}

// Sets the bit of y in row k, 64 bytes a row.
fn set_bit(rows: &mut [u8], k: usize, y: u32)
    requires y_bound { y < 512 }
    requires k_in_bounds { 64 * k + 64 ≤ length rows.old }
    requires rows_len_bound { length rows.old ≤ 256 }
    ensures { BitSet k y rows.old rows.new }
{
    let place = 64 * k + (y / 8) as usize;
    rows[place] |= 128 >> (y % 8);
}

// Sets in row k the bits of all that x is within, 64 bytes a row. The lent marks are zero before and after; the queue is lent for the climb alone.
pub fn mark_row(
    mem: &[u32],
    x: u32,
    rows: &mut [u8],
    k: usize,
    seen: &mut [u8; 512],
    queue: &mut [u32; 512],
)
    requires table { Table mem.now }
    requires x_bound { x < 512 }
    requires k_in_bounds { 64 * k + 64 ≤ length rows.old }
    requires rows_len_bound { length rows.old ≤ 256 }
    requires blank { Blank seen.old }
    requires queue_len { length queue.old ≡ 512 }
    ensures row_marked { RowMarked mem.now x k rows.old rows.new }
    ensures blank_after { Blank seen.new }
    ensures queue_len_after { length queue.new ≡ 512 }
{
    let n = climb_on(mem, x, seen, queue, 0);
    for y in &queue[..n] {
        set_bit(rows, k, *y);
        seen[*y as usize] = 0;
    }
}

// Whether x is within y: the mark of y in the climb from x.
fn by_marks(mem: &[u32], x: u32, y: u32) -> bool
    requires table { Table mem.now }
    requires x_bound { x < 512 }
    requires y_bound { y < 512 }
    ensures { result ≡ contained (policy_of mem.now) x y }
{
    let m = marks(mem, x);
    m[y as usize] == 1
}

// Plain containment: whether x is within y.
#[tactic(auto, using(crate::proofs::Answered::told_no_table, crate::proofs::Answered::told_no_id, table::proofs::Asked::tested, crate::proofs::Answered::told_absent, table::proofs::Asked::first_small, table::proofs::Asked::second_small))]
pub fn contained(mem: &[u32], x: u32, y: u32) -> Result<bool, Refusal>
    ensures { told result ≡ contains (memory mem.now) x y }
{
    if !table::holds(mem) {
        return Err(Refusal::NoTable);
    }
    if !table::are_element_ids(x, y) {
        return Err(Refusal::OutOfRange);
    }
    if !table::are_there(mem, x, y) {
        return Err(Refusal::NotThere);
    }
    Ok(by_marks(mem, x, y))
}

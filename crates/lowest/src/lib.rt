// The lowest association that authorizes a right over an element, in each class of the element.
#![tactic(auto)]

ghost use Rattle.std.specs.Prelude.{◌≡◌, true, false, cond, ◌+◌, ◌≤◌, ◌<◌, eqb, length};
ghost use Rattle.table.specs.Layout.{association_count};
ghost use Rattle.table.specs.Facts.{Table};
ghost use Rattle.held.specs.Lacking.{Rows};
ghost use Rattle.lowest.specs.Named.{is_before, is_lower, is_lower_at_target, lower_name, NamesOfFirst, LoweredAbove, LowestOfFirst, LowestOfClasses};
ghost use Rattle.lowest.specs.Marked.{associations_rise, first_name, ClassesQueued, FirstQueued, LowestMarked};

use rule::{Asking, Climbed};

// Whether association i is before association j, by user attribute, target, then rights.
#[tactic(auto, using(crate::proofs::Fields::attribute_lower, crate::proofs::Fields::attribute_higher, crate::proofs::Fields::target_lower, crate::proofs::Fields::target_higher, crate::proofs::Fields::rights_decide))]
fn is_before(mem: &[u32], i: usize, j: usize) -> bool
    requires table { Table mem.now }
    requires i_bound { i < association_count mem.now }
    requires j_bound { j < association_count mem.now }
    ensures { result ≡ is_before mem.now i j }
{
    // Field by field: as tuples, an explanation of the largest table was a sixth slower.
    let a = table::attribute_at(mem, i);
    let b = table::attribute_at(mem, j);
    if a < b {
        return true;
    }
    if b < a {
        return false;
    }
    let s = table::target_at(mem, i);
    let t = table::target_at(mem, j);
    if s < t {
        return true;
    }
    if t < s {
        return false;
    }
    table::rights_at(mem, i) < table::rights_at(mem, j)
}

// Whether association i is lower than what is named: before it, or none is named.
#[tactic(auto, using(crate::proofs::Fields::lower_than_none, crate::proofs::Fields::lower_than_named))]
fn is_lower(mem: &[u32], name: u32, i: usize) -> bool
    requires table { Table mem.now }
    requires name_le_i { name ≤ i }
    requires i_bound { i < association_count mem.now }
    ensures { result ≡ is_lower mem.now name i }
{
    if name == 0 {
        return true;
    }
    is_before(mem, i, (name - 1) as usize)
}

// The name of the lower of a named association and association i.
#[tactic(auto, using(crate::proofs::Fields::name_stays, crate::proofs::Fields::name_next))]
fn lower(mem: &[u32], name: u32, i: usize) -> u32
    requires table { Table mem.now }
    requires name_le_i { name ≤ i }
    requires i_bound { i < association_count mem.now }
    ensures { result ≡ lower_name mem.now name i }
{
    if !is_lower(mem, name, i) {
        return name;
    }
    i as u32 + 1
}

// The name that a class keeps when association i authorizes the right where the mark is not 0.
#[tactic(auto, using(crate::proofs::Fields::no_mark, crate::proofs::Fields::some_mark))]
fn kept_or_lower(mem: &[u32], mark: u8, name: u32, i: usize) -> u32
    requires table { Table mem.now }
    requires name_le_i { name ≤ i }
    requires i_bound { i < association_count mem.now }
    ensures { result ≡ cond (eqb mark 0) name (lower_name mem.now name i) }
{
    if mark == 0 {
        return name;
    }
    lower(mem, name, i)
}

// Names association i in each class that its target is within, unless a lower one is named there.
#[tactic(auto, using(crate::proofs::Setting::set_none, crate::proofs::Setting::next_few))]
fn name_above(mem: &[u32], i: usize, names: &mut [u32; 512])
    requires table { Table mem.now }
    requires i_bound { i < association_count mem.now }
    requires names_of_first { NamesOfFirst i names.old }
    ensures { LoweredAbove mem.now i names.old names.new }
{
    let marks = climb::marks(mem, table::target_at(mem, i));
    for (c, name) in names.iter_mut().enumerate() {
        *name = kept_or_lower(mem, marks[c], *name, i);
    }
}

// Whether association i is lower than what is named at its target.
#[tactic(auto, using(crate::proofs::Fields::target_few, crate::proofs::Fields::target_decides))]
fn is_lower_at_target(mem: &[u32], i: usize, names: &[u32; 512]) -> bool
    requires table { Table mem.now }
    requires i_bound { i < association_count mem.now }
    requires names_of_first { NamesOfFirst i names.now }
    ensures { result ≡ is_lower_at_target mem.now i names.now }
{
    is_lower(mem, names[table::target_at(mem, i) as usize], i)
}

// Takes association i into account.
#[tactic(auto, using(crate::proofs::Taken::taken_none, crate::proofs::Taken::taken_kept))]
fn name_next(mem: &[u32], rows: &[u8], q: Asking, i: usize, names: &mut [u32; 512])
    requires table { Table mem.now }
    requires rows { Rows mem.now rows.now false q }
    requires right_bound { q.right < 32 }
    requires i_bound { i < association_count mem.now }
    requires lowest_of_first { LowestOfFirst mem.now q i names.old }
    ensures { LowestOfFirst mem.now q (i + 1) names.new }
{
    if !rule::is_offered(mem, &Climbed { rows }, q, i) {
        return;
    }
    // what is named at the target authorizes the right in all that the target is within: where association i is not lower, nothing changes
    if !is_lower_at_target(mem, i, names) {
        return;
    }
    name_above(mem, i, names);
}

// For each class the name of the lowest association that authorizes the right in it, whatever the order of the associations.
#[tactic(auto, using(crate::proofs::Taken::taken_all))]
fn lowest_of_any(mem: &[u32], rows: &[u8], q: Asking) -> [u32; 512]
    requires table { Table mem.now }
    requires rows { Rows mem.now rows.now false q }
    requires right_bound { q.right < 32 }
    ensures { LowestOfFirst mem.now q (association_count mem.now) result }
{
    let n = table::association_count(mem);
    let mut names = [0u32; 512];
    for i in 0..n {
        name_next(mem, rows, q, i, &mut names);
    }
    names
}

// Whether the associations strictly rise, as those of every sound policy do.
fn are_rising(mem: &[u32]) -> bool
    requires { Table mem.now }
    ensures { result ≡ associations_rise mem.now }
{
    let n = table::association_count(mem);
    (1..n).all(|i| is_before(mem, i - 1, i))
}

// What is named, association i where none is.
#[tactic(auto, using(crate::proofs::Queued::some_stays, crate::proofs::Queued::none_next))]
fn first_name(name: u32, i: usize) -> u32
    requires { i < 1000 }
    ensures { result ≡ first_name name i }
{
    if 0 < name {
        return name;
    }
    i as u32 + 1
}

// Names association i in each class that stands in the queue from `tail` on and names none.
#[tactic(auto, using(crate::proofs::Queued::queued_none, crate::proofs::Queued::class_fits, crate::proofs::Queued::place_fits, crate::proofs::Queued::next_class, crate::proofs::Queued::queued_all))]
fn name_queued(queue: &[u32; 512], tail: usize, t: usize, i: usize, names: &mut [u32; 512])
    requires classes_queued { ClassesQueued queue.now t }
    requires tail_le_t { tail ≤ t }
    requires i_bound { i < 1000 }
    requires names_len { length names.old ≡ 512 }
    ensures { FirstQueued queue.now tail t i names.old names.new }
{
    for c in &queue[tail..t] {
        let c = *c as usize;
        names[c] = first_name(names[c], i);
    }
}

// Takes association i into account, where the associations rise: it is the lowest wherever none is named yet. What is marked is where one is named,
// and is not climbed from again.
fn name_first(
    mem: &[u32],
    rows: &[u8],
    q: Asking,
    i: usize,
    names: &mut [u32; 512],
    seen: &mut [u8; 512],
    queue: &mut [u32; 512],
    tail: usize,
) -> usize
    requires table { Table mem.now }
    requires rows { Rows mem.now rows.now false q }
    requires right_bound { q.right < 32 }
    requires mem_value { associations_rise mem.now ≡ true }
    requires i_bound { i < association_count mem.now }
    requires lowest_marked { LowestMarked mem.now q i names.old seen.old queue.old tail }
    ensures { LowestMarked mem.now q (i + 1) names.new seen.new queue.new result }
{
    if !rule::is_offered(mem, &Climbed { rows }, q, i) {
        return tail;
    }
    let target = table::target_at(mem, i);
    // what is named at the target authorizes the right in all that the target is within
    if 0 < seen[target as usize] {
        return tail;
    }
    let t = climb::climb_on(mem, target, seen, queue, tail);
    // what is marked besides is queued behind what was
    name_queued(queue, tail, t, i, names);
    t
}

// In each class of the element the name of the lowest association that authorizes the right there, where the associations rise: they are gone through
// once, as far as the classes need them, and what their targets are within is climbed once.
fn lowest_of_rising(mem: &[u32], rows: &[u8], q: Asking) -> [u32; 512]
    requires table { Table mem.now }
    requires rows { Rows mem.now rows.now false q }
    requires right_bound { q.right < 32 }
    requires mem_value { associations_rise mem.now ≡ true }
    ensures { LowestOfClasses mem.now q result }
{
    let mut associations = 0..table::association_count(mem);
    let mut names = [0u32; 512];
    let mut seen = [0u8; 512];
    let mut queue = [0u32; 512];
    let mut tail = 0;
    let mut from = 1;
    while let Some(c) = held::next_class(mem, rows, q.over, from) {
        // A while: the associations go on where the class before left them.
        while names[c as usize] == 0 {
            let Some(i) = associations.next() else {
                break;
            };
            tail = name_first(mem, rows, q, i, &mut names, &mut seen, &mut queue, tail);
        }
        from = c + 1;
    }
    names
}

// In each class of the element the name of the lowest association that authorizes the right there.
#[tactic(auto, using(crate::proofs::InOrder::rise_so))]
pub fn lowest(mem: &[u32], rows: &[u8], q: Asking) -> [u32; 512]
    requires table { Table mem.now }
    requires rows { Rows mem.now rows.now false q }
    requires right_bound { q.right < 32 }
    ensures { LowestOfClasses mem.now q result }
{
    if are_rising(mem) {
        return lowest_of_rising(mem, rows, q);
    }
    lowest_of_any(mem, rows, q)
}

// The working memory as words: which memory holds a table, and each field of the policy that it is.
#![tactic(auto)]

ghost use Rattle.std.specs.Prelude.{◌≡◌, ◌&&◌, ◌+◌, ◌≤◌, ◌<◌, length, replicate};
ghost use Rattle.model.specs.Policy.{is_element_id, is_process_id, kind_of, is_there, user_of, is_assigned};
ghost use Rattle.table.specs.Layout.{word, assignment_count, association_count, prohibition_count, prohibition_start};
ghost use Rattle.table.specs.View.{are_rising, are_small, has_short_lists, have_short_lists, holds_table, empty_table, policy_of, inclusion_count, exclusion_count, assignment_at, association_at, prohibition_at};
ghost use Rattle.table.specs.Answers.{left, new_table};
ghost use Rattle.table.specs.Facts.{Table, FirstOf, AtMost};

use answer::Refusal;

// Where everything stands in the memory: 8,192 words.
pub const WORDS: usize = 8192;

// What word 0 of a table holds: "QDR1".
const MARK: u32 = 0x5144_5231;

// The words that hold how many assignments, associations and prohibitions there are, and how many there can be.
pub const ASSIGNMENT_COUNTER: usize = 1;

pub const ASSOCIATION_COUNTER: usize = 2;

pub const PROHIBITION_COUNTER: usize = 3;

pub const MOST_ASSIGNMENTS: u32 = 2000;

pub const MOST_ASSOCIATIONS: u32 = 1000;

pub const MOST_PROHIBITIONS: u32 = 200;

// Where the kinds of elements start, the users of processes, the assignments, the associations and the prohibitions.
pub const KINDS: usize = 8;

pub const USERS: usize = 520;

pub const ASSIGNMENTS: usize = 776;

pub const ASSOCIATIONS: usize = 2776;

pub const PROHIBITIONS: usize = 5776;

// The kind of element x, 0 where it is not there.
#[tactic(auto, using(crate::proofs::ById::kind_outside, crate::proofs::ById::kind_above, crate::proofs::ById::kind_is))]
pub fn kind_of(mem: &[u32], x: u32) -> u32
    requires { Table mem.now }
    ensures { result ≡ kind_of (policy_of mem.now) x }
{
    if x < 1 {
        return 0;
    }
    if 511 < x {
        return 0;
    }
    let k = mem[KINDS + x as usize];
    if 5 < k {
        return 0;
    }
    k
}

// x is an id of an element, 1 to 511.
#[tactic(auto, using(crate::proofs::Asked::id_zero, crate::proofs::Asked::id_rest))]
pub fn is_element_id(x: u32) -> bool
    ensures { result ≡ is_element_id x }
{
    if x < 1 {
        return false;
    }
    x <= 511
}

// x and y are ids of elements.
#[tactic(auto, using(crate::proofs::Asked::first_fails, crate::proofs::Asked::second_decides))]
pub fn are_element_ids(x: u32, y: u32) -> bool
    ensures { result ≡ (is_element_id x && is_element_id y) }
{
    if !is_element_id(x) {
        return false;
    }
    is_element_id(y)
}

// i is an id of a process, 1 to 255.
#[tactic(auto, using(crate::proofs::Asked::process_zero, crate::proofs::Asked::process_rest))]
pub fn is_process_id(i: u32) -> bool
    ensures { result ≡ is_process_id i }
{
    if i < 1 {
        return false;
    }
    i <= 255
}

// Element x is there.
#[tactic(auto, using(crate::proofs::Asked::there_is))]
pub fn is_there(mem: &[u32], x: u32) -> bool
    requires { Table mem.now }
    ensures { result ≡ is_there (policy_of mem.now) x }
{
    kind_of(mem, x) != 0
}

// Elements x and y are there.
#[tactic(auto, using(crate::proofs::Asked::first_fails, crate::proofs::Asked::second_decides))]
pub fn are_there(mem: &[u32], x: u32, y: u32) -> bool
    requires { Table mem.now }
    ensures { result ≡ (is_there (policy_of mem.now) x && is_there (policy_of mem.now) y) }
{
    if !is_there(mem, x) {
        return false;
    }
    is_there(mem, y)
}

// The user of process i, 0 where it is not there.
#[tactic(auto, using(crate::proofs::ById::user_outside, crate::proofs::ById::user_above, crate::proofs::ById::user_is))]
pub fn user_of(mem: &[u32], i: u32) -> u32
    requires { Table mem.now }
    ensures { result ≡ user_of (policy_of mem.now) i }
{
    if i < 1 {
        return 0;
    }
    if 255 < i {
        return 0;
    }
    let u = mem[USERS + i as usize];
    if 511 < u {
        return 0;
    }
    u
}

// Whether the lists of the prohibition that starts at a word are short: at most four ids each.
#[tactic(auto, using(crate::proofs::Checks::lists_short_lem))]
fn has_short_lists(mem: &[u32], start: usize) -> bool
    requires { start + 11 ≤ length mem.now }
    ensures { result ≡ has_short_lists mem.now start }
{
    let counts = mem[start + 2];
    (counts / 8 <= 4) & (counts % 8 <= 4)
}

// Whether those of the first n prohibitions are. No early exit: every call asks it of each prohibition.
#[tactic(auto, using(crate::proofs::Checks::short_all))]
fn have_short_lists(mem: &[u32], n: usize) -> bool
    requires mem_len { length mem.now ≡ 8192 }
    requires n_bound { n ≤ 200 }
    ensures { result ≡ have_short_lists mem.now n }
{
    let mut short = true;
    for i in 0..n {
        short &= has_short_lists(mem, PROHIBITIONS + 11 * i);
    }
    short
}

// Whether each of the first n assignments is above the one before it. No early exit: it is the one pass over all assignments that every call makes.
#[tactic(auto, using(crate::proofs::Checks::rise_none, crate::proofs::Checks::rise_more, crate::proofs::Checks::rise_all))]
fn are_rising(mem: &[u32], n: usize) -> bool
    requires mem_len { length mem.now ≡ 8192 }
    requires le_n { 1 ≤ n }
    requires n_bound { n ≤ 2000 }
    ensures { result ≡ are_rising mem.now n }
{
    let mut up = true;
    for i in 1..n {
        up &= mem[ASSIGNMENTS + i - 1] < mem[ASSIGNMENTS + i];
    }
    up
}

// Whether the first n assignments rise and their children are below 512: where they rise, the last tells that of all.
#[tactic(auto, using(crate::proofs::Checks::order_none, crate::proofs::Checks::order_falls, crate::proofs::Checks::order_last))]
fn are_in_order(mem: &[u32], n: usize) -> bool
    requires mem_len { length mem.now ≡ 8192 }
    requires n_bound { n ≤ 2000 }
    ensures { result ≡ (are_rising mem.now n && are_small mem.now n) }
{
    if n == 0 {
        return true;
    }
    if !are_rising(mem, n) {
        return false;
    }
    mem[ASSIGNMENTS + n - 1] < 262144
}

// Whether the memory holds a table.
pub fn holds(mem: &[u32]) -> bool
    ensures { result ≡ holds_table mem.now }
{
    if mem.len() != WORDS {
        return false;
    }
    if mem[0] != MARK {
        return false;
    }
    if MOST_ASSIGNMENTS < mem[ASSIGNMENT_COUNTER] {
        return false;
    }
    if MOST_ASSOCIATIONS < mem[ASSOCIATION_COUNTER] {
        return false;
    }
    if MOST_PROHIBITIONS < mem[PROHIBITION_COUNTER] {
        return false;
    }
    if !are_in_order(mem, mem[ASSIGNMENT_COUNTER] as usize) {
        return false;
    }
    have_short_lists(mem, mem[PROHIBITION_COUNTER] as usize)
}

// Makes words that are all zero the empty table.
#[tactic(auto, using(crate::proofs::Empty::zeros_some))]
pub fn mark(mem: &mut [u32])
    requires { mem.old ≡ replicate 8192 0 }
    ensures { mem.new ≡ empty_table }
{
    mem[0] = MARK;
}

// Makes the memory the empty table.
#[tactic(auto, using(crate::proofs::Empty::new_refused, crate::proofs::Empty::new_done))]
pub fn new(mem: &mut [u32]) -> Result<(), Refusal>
    ensures { left result mem.new ≡ new_table mem.old }
{
    if mem.len() != WORDS {
        return Err(Refusal::NoTable);
    }
    group::clear(mem, 0, WORDS);
    mark(mem);
    Ok(())
}

// The first assignment whose child is x or above, by halving.
pub fn first_of(mem: &[u32], x: u32) -> usize
    requires table { Table mem.now }
    requires x_bound { x ≤ 512 }
    ensures { FirstOf mem.now x result }
{
    let n = mem[ASSIGNMENT_COUNTER] as usize;
    mem[ASSIGNMENTS..ASSIGNMENTS + n].partition_point(|word| *word < x * 512)
}

// Whether x is assigned to y: y stands among the containers of x.
pub fn is_assigned(mem: &[u32], x: u32, y: u32) -> bool
    requires table { Table mem.now }
    requires x_bound { x < 512 }
    requires y_bound { y < 512 }
    ensures { result ≡ is_assigned (policy_of mem.now) x y }
{
    let from = ASSIGNMENTS + first_of(mem, x);
    let end = ASSIGNMENTS + first_of(mem, x + 1);
    mem[from..end].contains(&(x * 512 + y))
}

// How many assignments there are.
pub fn assignment_count(mem: &[u32]) -> usize
    requires { Table mem.now }
    ensures { result ≡ assignment_count mem.now }
{
    mem[ASSIGNMENT_COUNTER] as usize
}

// The child of assignment i.
pub fn child_at(mem: &[u32], i: usize) -> u32
    requires table { Table mem.now }
    requires i_bound { i < assignment_count mem.now }
    ensures { result ≡ (assignment_at mem.now i).child }
{
    mem[ASSIGNMENTS + i] / 512
}

// The container of assignment i.
pub fn container_at(mem: &[u32], i: usize) -> u32
    requires table { Table mem.now }
    requires i_bound { i < assignment_count mem.now }
    ensures { result ≡ (assignment_at mem.now i).container }
{
    mem[ASSIGNMENTS + i] % 512
}

// How many associations there are.
pub fn association_count(mem: &[u32]) -> usize
    requires { Table mem.now }
    ensures { result ≡ association_count mem.now }
{
    mem[ASSOCIATION_COUNTER] as usize
}

// The user attribute of association i.
pub fn attribute_at(mem: &[u32], i: usize) -> u32
    requires table { Table mem.now }
    requires i_bound { i < association_count mem.now }
    ensures { result ≡ (association_at mem.now i).attribute }
{
    mem[ASSOCIATIONS + 2 * i] / 512
}

// The target of association i.
pub fn target_at(mem: &[u32], i: usize) -> u32
    requires table { Table mem.now }
    requires i_bound { i < association_count mem.now }
    ensures { result ≡ (association_at mem.now i).target }
{
    mem[ASSOCIATIONS + 2 * i] % 512
}

// The rights of association i.
pub fn rights_at(mem: &[u32], i: usize) -> u32
    requires table { Table mem.now }
    requires i_bound { i < association_count mem.now }
    ensures { result ≡ (association_at mem.now i).rights }
{
    mem[ASSOCIATIONS + 2 * i + 1]
}

// How many prohibitions there are.
pub fn prohibition_count(mem: &[u32]) -> usize
    requires { Table mem.now }
    ensures { result ≡ prohibition_count mem.now }
{
    mem[PROHIBITION_COUNTER] as usize
}

// The subject's sort of prohibition i.
pub fn sort_at(mem: &[u32], i: usize) -> u32
    requires table { Table mem.now }
    requires i_bound { i < prohibition_count mem.now }
    ensures { result ≡ (prohibition_at mem.now i).sort }
{
    mem[PROHIBITIONS + 11 * i] / 1024
}

// The subject of prohibition i.
pub fn subject_at(mem: &[u32], i: usize) -> u32
    requires table { Table mem.now }
    requires i_bound { i < prohibition_count mem.now }
    ensures { result ≡ (prohibition_at mem.now i).subject }
{
    mem[PROHIBITIONS + 11 * i] / 2 % 512
}

// The form of prohibition i.
pub fn form_at(mem: &[u32], i: usize) -> u32
    requires table { Table mem.now }
    requires i_bound { i < prohibition_count mem.now }
    ensures { result ≡ (prohibition_at mem.now i).form }
{
    mem[PROHIBITIONS + 11 * i] % 2
}

// The rights of prohibition i.
pub fn prohibition_rights_at(mem: &[u32], i: usize) -> u32
    requires table { Table mem.now }
    requires i_bound { i < prohibition_count mem.now }
    ensures { result ≡ (prohibition_at mem.now i).rights }
{
    mem[PROHIBITIONS + 11 * i + 1]
}

// How many inclusions prohibition i has.
#[tactic(auto, using(crate::proofs::Listed::inclusions_few))]
pub fn inclusion_count_at(mem: &[u32], i: usize) -> usize
    requires table { Table mem.now }
    requires i_bound { i < prohibition_count mem.now }
    ensures { AtMost (inclusion_count mem.now (prohibition_start i)) 4 result }
{
    (mem[PROHIBITIONS + 11 * i + 2] / 8 % 8) as usize
}

// How many exclusions prohibition i has.
#[tactic(auto, using(crate::proofs::Listed::exclusions_few))]
pub fn exclusion_count_at(mem: &[u32], i: usize) -> usize
    requires table { Table mem.now }
    requires i_bound { i < prohibition_count mem.now }
    ensures { AtMost (exclusion_count mem.now (prohibition_start i)) 4 result }
{
    (mem[PROHIBITIONS + 11 * i + 2] % 8) as usize
}

// Id k of those that prohibition i lists, the inclusions first.
pub fn listed_at(mem: &[u32], i: usize, k: usize) -> u32
    requires table { Table mem.now }
    requires i_bound { i < prohibition_count mem.now }
    requires k_bound { k < 8 }
    ensures { result ≡ word mem.now (prohibition_start i + 3 + k) }
{
    mem[PROHIBITIONS + 11 * i + 3 + k]
}

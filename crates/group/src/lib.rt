// Groups of records of any width in lent words: where a record stands, and putting one in and taking some out with every word determined.
#![tactic(auto)]

ghost use Rattle.std.specs.Prelude.{◌≡◌, ◌+◌, ◌*◌, ◌≤◌, ◌<◌, length, take, drop, get_or, replicate};
ghost use Rattle.model.specs.Lists.{before, same};
ghost use Rattle.group.specs.Group.{records, laid, first_of, begins, inserted_at, removed_at, with_record, without_record, Fits};

// The record is before the one that starts at word `at`. Word by word: with `<` on slices an association took half as long again to create.
fn is_before(mem: &[u32], at: usize, rec: &[u32]) -> bool
    requires { at + length rec.now ≤ length mem.now }
    ensures { result ≡ before rec.now (take (length rec.now) (drop at mem.now)) }
{
    for i in 0..rec.len() {
        if rec[i] < mem[at + i] {
            return true;
        }
        if mem[at + i] < rec[i] {
            return false;
        }
    }
    false
}

// The words are those that stand from word `at` on. Word by word, for the same reason.
fn is_same(mem: &[u32], at: usize, rec: &[u32]) -> bool
    requires { at + length rec.now ≤ length mem.now }
    ensures { result ≡ same rec.now (take (length rec.now) (drop at mem.now)) }
{
    for i in 0..rec.len() {
        if rec[i] != mem[at + i] {
            return false;
        }
    }
    true
}

// How many of the n records from `base` on stand before the first that the record is before.
pub fn place(mem: &[u32], base: usize, n: usize, rec: &[u32]) -> usize
    requires { base + length rec.now * n ≤ length mem.now }
    ensures { (result ≡ first_of (before rec.now) (records (length rec.now) n (drop base mem.now))) × (result ≤ n) }
{
    (0..n)
        .position(|i| is_before(mem, base + rec.len() * i, rec))
        .unwrap_or(n)
}

// How many of the n records of `width` words from `base` on stand before the first that begins with the words given.
pub fn find(mem: &[u32], base: usize, width: usize, n: usize, front: &[u32]) -> usize
    requires n_in_bounds { base + width * n ≤ length mem.now }
    requires front_len_bound { length front.now ≤ width }
    ensures { (result ≡ first_of (begins front.now) (records width n (drop base mem.now))) × (result ≤ n) }
{
    (0..n)
        .position(|i| is_same(mem, base + width * i, front))
        .unwrap_or(n)
}

// Puts 0 into n words from `at` on.
pub fn clear(mem: &mut [u32], at: usize, n: usize)
    requires { at + n ≤ length mem.old }
    ensures { mem.new ≡ laid at (replicate n 0) mem.old }
{
    mem[at..at + n].fill(0);
}

// Puts the record into the words from `at` on.
pub fn store(mem: &mut [u32], at: usize, rec: &[u32])
    requires { at + length rec.now ≤ length mem.old }
    ensures { mem.new ≡ laid at rec.now mem.old }
{
    mem[at..at + rec.len()].copy_from_slice(rec);
}

// Moves n words from `at` on up by k, the last of them first. By hand: `copy_within` would have the archive need `memmove` from outside.
fn open_gap(mem: &mut [u32], at: usize, n: usize, k: usize)
    requires { at + n + k ≤ length mem.old }
    ensures { mem.new ≡ laid (at + k) (take n (drop at mem.old)) mem.old }
{
    for i in (0..n).rev() {
        mem[at + k + i] = mem[at + i];
    }
}

// Moves n words down by k, to `at`, the first of them first.
fn close_gap(mem: &mut [u32], at: usize, n: usize, k: usize)
    requires { at + n + k ≤ length mem.old }
    ensures { mem.new ≡ laid at (take n (drop (at + k) mem.old)) mem.old }
{
    for i in 0..n {
        mem[at + i] = mem[at + k + i];
    }
}

// Puts the record in with `at` records before it.
#[tactic(auto, using(crate::proofs::Changes::opening))]
pub fn insert(mem: &mut [u32], base: usize, counter: usize, at: usize, rec: &[u32])
    requires fits { Fits base (length rec.now) counter (get_or mem.old counter 0 + 1) mem.old }
    requires at_bound { at ≤ get_or mem.old counter 0 }
    ensures { mem.new ≡ inserted_at base counter at rec.now mem.old }
{
    let width = rec.len();
    let n = mem[counter] as usize;
    let from = base + width * at;
    open_gap(mem, from, width * (n - at), width);
    store(mem, from, rec);
    mem[counter] = (n + 1) as u32;
}

// Takes out k records from number `at` on, counted from 0.
#[tactic(auto, using(crate::proofs::Changes::closing))]
pub fn remove(mem: &mut [u32], base: usize, width: usize, counter: usize, at: usize, k: usize)
    requires fits { Fits base width counter (get_or mem.old counter 0) mem.old }
    requires k_bound { at + k ≤ get_or mem.old counter 0 }
    ensures { mem.new ≡ removed_at base width counter at k mem.old }
{
    let n = mem[counter] as usize;
    let from = base + width * at;
    let rest = width * (n - (at + k));
    close_gap(mem, from, rest, width * k);
    clear(mem, from + rest, width * k);
    mem[counter] = (n - k) as u32;
}

// Puts the record in its place: before the first that it is before.
pub fn add(mem: &mut [u32], base: usize, counter: usize, rec: &[u32])
    requires { Fits base (length rec.now) counter (get_or mem.old counter 0 + 1) mem.old }
    ensures { mem.new ≡ with_record base counter rec.now mem.old }
{
    let n = mem[counter] as usize;
    let at = place(mem, base, n, rec);
    insert(mem, base, counter, at, rec);
}

// Takes out the first record of `width` words that begins with those given, where one does.
pub fn take_out(mem: &mut [u32], base: usize, width: usize, counter: usize, front: &[u32])
    requires fits { Fits base width counter (get_or mem.old counter 0) mem.old }
    requires front_len_bound { length front.now ≤ width }
    ensures { mem.new ≡ without_record base width counter front.now mem.old }
{
    let n = mem[counter] as usize;
    let at = find(mem, base, width, n, front);
    if n <= at {
        return;
    }
    remove(mem, base, width, counter, at, 1);
}

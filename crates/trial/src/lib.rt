// What the test programs share: the steps of a script, the numbers that answers become, the sums that are printed, and lent words.
#![tactic(auto)]

ghost use Rattle.std.specs.Prelude.{◌≡◌, ◌%◌, ◌≤◌, min, length, take, drop, set, fold};
ghost use Rattle.std.specs.Int.{from_be_bytes, w16, w32};
ghost use Rattle.answer.specs.Answers.{refusal_in};
ghost use Rattle.table.specs.Layout.{word};
ghost use Rattle.table.specs.Answers.{left};
ghost use Rattle.trial.specs.Given.{given_kind, assigned};
ghost use Rattle.trial.specs.Sums.{mixed};

use answer::Refusal;

// A step of a script, or a command: a letter and three numbers.
#[derive(Clone, Copy)]
pub struct Order {
    pub letter: u8,
    pub a: u32,
    pub b: u32,
    pub c: u32,
}

// The step that nine bytes are: a letter, two numbers of two bytes and one of four, the high byte first.
pub fn short_order(s: &[u8; 9]) -> Order
    ensures letter { result.letter ≡ word s.now 0 }
    ensures a { result.a ≡ from_be_bytes w16 (take 2 (drop 1 s.now)) }
    ensures b { result.b ≡ from_be_bytes w16 (take 2 (drop 3 s.now)) }
    ensures c { result.c ≡ from_be_bytes w32 (take 4 (drop 5 s.now)) }
{
    Order {
        letter: s[0],
        a: u32::from(u16::from_be_bytes([s[1], s[2]])),
        b: u32::from(u16::from_be_bytes([s[3], s[4]])),
        c: u32::from_be_bytes([s[5], s[6], s[7], s[8]]),
    }
}

// The step that thirteen bytes are: a letter and three numbers of four bytes, the high byte first.
pub fn long_order(s: &[u8; 13]) -> Order
    ensures letter { result.letter ≡ word s.now 0 }
    ensures a { result.a ≡ from_be_bytes w32 (take 4 (drop 1 s.now)) }
    ensures b { result.b ≡ from_be_bytes w32 (take 4 (drop 5 s.now)) }
    ensures c { result.c ≡ from_be_bytes w32 (take 4 (drop 9 s.now)) }
{
    Order {
        letter: s[0],
        a: u32::from_be_bytes([s[1], s[2], s[3], s[4]]),
        b: u32::from_be_bytes([s[5], s[6], s[7], s[8]]),
        c: u32::from_be_bytes([s[9], s[10], s[11], s[12]]),
    }
}

// How many of n items there are.
pub fn first_of<T>(n: u32, items: &[T]) -> usize
    ensures value { result ≡ min (length items.now) n }
    ensures in_bounds { result ≤ length items.now }
    ensures lent { result ≡ length (take result items.now) }
{
    items.len().min(n as usize)
}

// Word i, 0 where there is none.
pub fn word_at(mem: &[u32], i: usize) -> u32
    ensures { result ≡ word mem.now i }
{
    mem.get(i).copied().unwrap_or(0)
}

// Puts v at word i, where there is such a word.
pub fn put(mem: &mut [u32], i: usize, v: u32)
    ensures { mem.new ≡ set mem.old i v }
{
    if i < mem.len() {
        mem[i] = v;
    }
}

// The refusal number of a call, 0 where it was done.
pub fn number_of(r: Result<(), Refusal>) -> u32
    ensures { result ≡ refusal_in r }
{
    match r {
        Ok(()) => 0,
        Err(refusal) => u32::from(refusal),
    }
}

// The next sum; also the next number of a sequence that looks like chance.
pub fn mix(sum: u32, word: u32) -> u32
    ensures { result ≡ mixed sum word }
{
    sum.wrapping_mul(1103515245)
        .wrapping_add(word)
        .wrapping_add(12345)
}

// The sum of the bytes.
pub fn sum_of(bytes: &[u8]) -> u32
    ensures { result ≡ fold mixed 0 bytes.now }
{
    bytes.iter().fold(0, |sum, byte| mix(sum, u32::from(*byte)))
}

// Gives element x of 512 a kind, 0 for none.
#[tactic(auto, using(table::proofs::Asked::tested), unfolding(crate::specs::Given::given_kind, answer::specs::Answers::told))]
pub fn give_kind(mem: &mut [u32], x: u32, kind: u32) -> Result<(), Refusal>
    ensures { left result mem.new ≡ given_kind (x % 512) kind mem.old }
{
    if !table::holds(mem) {
        return Err(Refusal::NoTable);
    }
    if 5 < kind {
        return Err(Refusal::OutOfRange);
    }
    store::set_kind(mem, x % 512, kind);
    Ok(())
}

// Puts an assignment of x to y in, both of 512.
#[tactic(auto, using(table::proofs::Asked::tested, table::proofs::Asked::not_assigned), unfolding(crate::specs::Given::assigned, answer::specs::Answers::told))]
pub fn assign(mem: &mut [u32], x: u32, y: u32) -> Result<(), Refusal>
    ensures { left result mem.new ≡ assigned (x % 512) (y % 512) mem.old }
{
    if !table::holds(mem) {
        return Err(Refusal::NoTable);
    }
    if table::is_assigned(mem, x % 512, y % 512) {
        return Err(Refusal::AlreadyThere);
    }
    store::add_assignment(mem, x % 512, y % 512)
}

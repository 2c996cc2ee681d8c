// Runs a script of steps on a table, its index and some bits, and prints what the steps answer. A step is nine bytes: a letter, two numbers of two
// bytes and one of four, the high byte first. second/ has the script's meaning and makes the stored input and output.
#![tactic(auto)]

ghost use Rattle.std.specs.Prelude.{◌≡◌, length};

use answer::Refusal;
use bits::Cursor;

// A letter, a number and the end of the line.
fn say(letter: u8, n: u32) {
    io::write_all(1, &[letter, b' ']);
    io::print_decimal(1, n as u64);
    io::write_all(1, &[b'\n']);
}

// Says a refusal, and nothing of what was done.
fn say_refusal(r: Result<(), Refusal>) {
    if let Err(refusal) = r {
        say(b'R', u32::from(refusal));
    }
}

// Says yes or no behind the letter of the question.
fn say_yes(letter: u8, r: Result<bool, Refusal>) {
    match r {
        Ok(yes) => say(letter, u32::from(yes)),
        Err(refusal) => say(b'R', u32::from(refusal)),
    }
}

// The steps that change the table; on memory that holds none they say 1.
fn change(mem: &mut [u32], letter: u8, a: u32, b: u32) {
    if letter == b'K' {
        say_refusal(trial::give_kind(mem, a, b));
        return;
    }
    if letter == b'A' {
        say_refusal(trial::assign(mem, a, b));
        return;
    }
    if !table::holds(mem) {
        say(b'R', 1);
        return;
    }
    if letter == b'D' {
        store::take_assignment(mem, a % 512, b % 512);
        return;
    }
    store::take_assignments_of(mem, a % 512);
}

// The steps about the index; one of another length is lent on request.
fn look(mem: &[u32], idx: &mut [u8], other: &mut [u8], letter: u8, a: u32, b: u32)
    requires { length idx.old ≡ 32768 }
{
    if letter == b'B' {
        say_refusal(index::build(mem, idx));
        return;
    }
    if letter == b'L' {
        say_refusal(index::build(mem, other));
        return;
    }
    if letter == b'F' {
        idx[(a % 32768) as usize] = (b % 256) as u8;
        return;
    }
    if letter == b'T' {
        say_yes(b'T', index::is_index(mem, idx));
        return;
    }
    if index::bit(idx, a % 512, b % 512) {
        say(b'I', 1);
        return;
    }
    say(b'I', 0);
}

// The steps that write and read bits: n of them from the place `at` on.
fn bits_step(room: &mut [u8], letter: u8, n: u32, at: usize, v: u32)
    requires { length room.old ≡ 64 }
{
    if n < 1 {
        return;
    }
    if 32 < n {
        return;
    }
    if letter == b'G' {
        match (Cursor { at }).read(room, n) {
            Some(bits) => say(b'G', bits.value),
            None => say(b'R', 12),
        }
        return;
    }
    if 480 < at {
        return;
    }
    Cursor { at }.write(room, n, v);
}

// One step.
fn step(mem: &mut [u32], idx: &mut [u8], room: &mut [u8], letter: u8, a: u32, b: u32, v: u32)
    requires mem_len { length mem.old ≡ 8192 }
    requires idx_len { length idx.old ≡ 32768 }
    requires room_len { length room.old ≡ 64 }
{
    if letter == b'N' {
        say_refusal(table::new(mem));
        return;
    }
    if letter == b'X' {
        mem[(a % 8192) as usize] = v;
        return;
    }
    if letter == b'W' {
        mem[(a % 8192) as usize] = v;
        return;
    }
    if letter == b'Y' {
        mem[table::KINDS + (a % 512) as usize] = b;
        return;
    }
    if letter == b'C' {
        say_yes(b'C', climb::contained(mem, a, b));
        return;
    }
    if is_change(letter) {
        change(mem, letter, a, b);
        return;
    }
    if is_bits(letter) {
        bits_step(room, letter, a, b as usize, v);
        return;
    }
    look(mem, idx, room, letter, a, b);
}

// Whether the step changes the table by a record.
fn is_change(letter: u8) -> bool {
    matches!(letter, b'K' | b'A' | b'D' | b'U')
}

// Whether the step is about bits.
fn is_bits(letter: u8) -> bool {
    matches!(letter, b'P' | b'G')
}

// All steps of a script.
fn run(script: &[u8], mem: &mut [u32], idx: &mut [u8], room: &mut [u8])
    requires mem_len { length mem.old ≡ 8192 }
    requires idx_len { length idx.old ≡ 32768 }
    requires room_len { length room.old ≡ 64 }
{
    for s in script.as_chunks::<9>().0 {
        let o = trial::short_order(s);
        step(mem, idx, room, o.letter, o.a, o.b, o.c);
    }
}

fn main() {
    let mut script = io::large_buffer();
    let n = io::read_full(0, &mut script);
    let mut mem = [0u32; 8192];
    let mut idx = [0u8; 32768];
    let mut room = [0u8; 64];
    run(&script[..n], &mut mem, &mut idx, &mut room);
}

// Loads and saves images as a script says, and prints what that answers and leaves. A step is thirteen bytes: a letter and three numbers of four
// bytes, the high byte first; an image follows its step. second/ has the script's meaning and makes the stored input and output.
#![tactic(auto)]

ghost use Rattle.std.specs.Prelude.{◌<◌};

use answer::Refusal;
use trial::Order;

// How many words of the memory and bytes of the room are lent, and how many bytes the image has.
#[derive(Clone, Copy)]
struct Kept {
    words: u32,
    bytes: u32,
    image: u32,
}

// A letter.
fn say_letter(letter: u8) {
    io::write_all(1, &[letter]);
}

// A number, and a space or the end of the line.
fn say_number(n: u32, end: u8) {
    io::print_decimal(1, n as u64);
    say_letter(end);
}

// The letter of an answer: the first for "accepted", or that of the refusal number behind it.
fn letter_of(n: u32) -> u8 {
    b'a' + (n % 16) as u8
}

// What a save answers as one number: the length, or 65,536 times the refusal number.
fn code_of(r: Result<usize, Refusal>) -> u32 {
    match r {
        Ok(n) => (n % 65536) as u32,
        Err(refusal) => u32::from(refusal) % 16 * 65536,
    }
}

// The sum of the words.
fn sum_words(mem: &[u32]) -> u32 {
    mem.iter().fold(0, |sum, word| trial::mix(sum, *word))
}

// Makes the bytes those of others, zero where these end.
fn copy(to: &mut [u8], from: &[u8]) {
    let n = to.len().min(from.len());
    to[..n].copy_from_slice(&from[..n]);
    to[n..].fill(0);
}

// Turns a bit over, where there is such a bit.
fn flip(bytes: &mut [u8], bit: usize) {
    let i = bit / 8;
    if bytes.len() <= i {
        return;
    }
    bytes[i] ^= 128 >> (bit % 8);
}

// The state: the head, the sum of the words, the sum of the room.
fn say_state(mem: &[u32], room: &[u8]) {
    io::write_all(1, b"H ");
    for i in 0..8 {
        say_number(trial::word_at(mem, i), b' ');
    }
    say_number(sum_words(mem), b'\n');
    io::write_all(1, b"R ");
    say_number(trial::sum_of(room), b'\n');
}

// Saves, and adds the words, the answer and the room to the sum.
fn save_into(mem: &[u32], room: &mut [u8], sum: u32) -> u32 {
    let before = trial::mix(sum, sum_words(mem));
    let answered = trial::mix(before, code_of(image::save(mem, room)));
    trial::mix(answered, trial::sum_of(room))
}

// Loads, says the answer, saves, and adds all to the sum.
fn attempt(mem: &mut [u32], bytes: &[u8], room: &mut [u8], sum: u32) -> u32 {
    let n = trial::number_of(image::load(mem, bytes));
    say_letter(letter_of(n));
    save_into(mem, room, trial::mix(sum, n))
}

// The first n bytes, or all where there are fewer, are tried.
fn attempt_first(mem: &mut [u32], bytes: &[u8], n: u32, room: &mut [u8], sum: u32) -> u32 {
    let k = trial::first_of(n, bytes);
    attempt(mem, &bytes[..k], room, sum)
}

// Ends the line, and says the sum on one of its own.
fn say_sum(sum: u32) {
    say_letter(b'\n');
    say_number(sum, b'\n');
}

// Tries each cut.
fn cuts(mem: &mut [u32], bytes: &[u8], room: &mut [u8], n: u32) {
    let mut sum = 0;
    for i in 0..n {
        sum = attempt_first(mem, bytes, i, room, sum);
    }
    say_sum(attempt(mem, bytes, room, sum));
}

// Tries the bytes with one bit turned over, and turns it back.
fn attempt_flipped(
    mem: &mut [u32],
    bytes: &mut [u8],
    room: &mut [u8],
    bit: usize,
    sum: u32,
) -> u32 {
    flip(bytes, bit);
    let after = attempt(mem, bytes, room, sum);
    flip(bytes, bit);
    after
}

// Tries each of the first n bits turned over.
fn flips(mem: &mut [u32], bytes: &mut [u8], room: &mut [u8], n: usize) {
    let mut sum = 0;
    for i in 0..n {
        sum = attempt_flipped(mem, bytes, room, i, sum);
    }
    say_sum(sum);
}

// Turns k bits of the first n over, as chance has it.
fn scatter(bytes: &mut [u8], n: usize, x: u32, k: u32)
    requires { 0 < n }
{
    let mut y = x;
    for _ in 0..k {
        y = trial::mix(y, 1);
        flip(bytes, (y / 32768) as usize % n);
    }
}

// Tries the bytes, of n bits, damaged as chance has it, and makes them whole again.
fn attempt_damaged(
    mem: &mut [u32],
    bytes: &mut [u8],
    room: &mut [u8],
    n: u32,
    x: u32,
    sum: u32,
) -> u32 {
    let r = trial::mix(x, 0) / 65536;
    if r % 4 == 0 {
        return attempt_first(mem, bytes, r / 4 % (n / 8 + 1), room, sum);
    }
    if n == 0 {
        return sum;
    }
    scatter(bytes, n as usize, x, r % 4);
    let after = attempt(mem, bytes, room, sum);
    scatter(bytes, n as usize, x, r % 4);
    after
}

// Tries so many damaged images.
fn damages(mem: &mut [u32], bytes: &mut [u8], room: &mut [u8], n: u32, seed: u32, count: u32) {
    let mut x = seed;
    let mut sum = 0;
    for i in 0..count {
        x = trial::mix(x, i);
        sum = attempt_damaged(mem, bytes, room, n, x, sum);
    }
    say_sum(sum);
}

// Saves, and says the answer and the length.
fn say_save(mem: &[u32], room: &mut [u8]) {
    let code = code_of(image::save(mem, room));
    say_letter(letter_of(code / 65536));
    say_number(code % 65536, b' ');
}

// The steps that load, save and make the empty table.
fn obey(mem: &mut [u32], bytes: &[u8], room: &mut [u8], letter: u8) {
    if letter == b'l' {
        say_letter(letter_of(trial::number_of(image::load(mem, bytes))));
        return;
    }
    if letter == b's' {
        say_save(mem, room);
        return;
    }
    say_letter(letter_of(trial::number_of(table::new(mem))));
}

// The steps that try images. n is how many bytes the image has.
fn try_many(mem: &mut [u32], bytes: &mut [u8], room: &mut [u8], n: u32, o: Order) {
    if o.letter == b'K' {
        cuts(mem, bytes, room, n);
        return;
    }
    if o.letter == b'T' {
        flips(mem, bytes, room, n as usize * 8);
        return;
    }
    if o.letter == b'Y' {
        damages(mem, bytes, room, n % 65536 * 8, o.a, o.b);
    }
}

// The steps that change a word or the room, and those that only print.
fn tell(mem: &mut [u32], room: &mut [u8], o: Order) {
    if o.letter == b'.' {
        say_letter(b'\n');
        return;
    }
    if o.letter == b'=' {
        say_state(mem, room);
        return;
    }
    if o.letter == b'W' {
        trial::put(mem, o.a as usize, o.b);
        return;
    }
    if o.letter == b'Z' {
        room.fill((o.a % 256) as u8);
    }
}

// One step on what is lent.
fn step(mem: &mut [u32], bytes: &mut [u8], room: &mut [u8], n: u32, o: Order) {
    if b'a' <= o.letter {
        obey(mem, bytes, room, o.letter);
        return;
    }
    tell(mem, room, o);
    try_many(mem, bytes, room, n, o);
}

// How many bytes follow a step.
fn following(o: Order) -> u32 {
    if o.letter == b'B' {
        return o.a;
    }
    0
}

// What is kept after a step.
fn kept_after(k: Kept, o: Order) -> Kept {
    let mut kept = k;
    if o.letter == b'L' {
        kept.words = o.a;
        kept.bytes = o.b;
        return kept;
    }
    if o.letter == b'B' {
        kept.image = o.a;
        return kept;
    }
    if o.letter == b'N' {
        kept.image = o.a;
    }
    kept
}

// The image is what follows, where something does; bytes of it that were cut off are zero when it is longer again.
fn take_image(bytes: &mut [u8], more: &[u8], n: u32, o: Order) {
    if o.letter == b'B' {
        copy(bytes, more);
        return;
    }
    if o.letter == b'N' {
        let k = trial::first_of(n, bytes);
        bytes[k..].fill(0);
    }
}

// One step on as much as is lent after it.
fn turn(
    mem: &mut [u32],
    bytes: &mut [u8],
    room: &mut [u8],
    more: &[u8],
    k: Kept,
    o: Order,
) -> Kept {
    let kept = kept_after(k, o);
    take_image(bytes, more, kept.image, o);
    let words = trial::first_of(kept.words, mem);
    let length = trial::first_of(kept.image, bytes);
    let lent = trial::first_of(kept.bytes, room);
    step(
        &mut mem[..words],
        &mut bytes[..length],
        &mut room[..lent],
        kept.image,
        o,
    );
    kept
}

// All steps of a script.
fn run(script: &[u8], mem: &mut [u32], bytes: &mut [u8], room: &mut [u8]) {
    let mut k = Kept {
        words: 8192,
        bytes: 16384,
        image: 0,
    };
    let mut rest = script;
    // A while: the place moves by what was read.
    while let Some((s, behind)) = rest.split_first_chunk::<13>() {
        let o = trial::long_order(s);
        let n = trial::first_of(following(o), behind);
        k = turn(mem, bytes, room, &behind[..n], k, o);
        rest = &behind[n..];
    }
}

fn main() {
    let mut script = [0u8; 360448];
    let mut mem = [0u32; 8193];
    let mut bytes = [0u8; 18432];
    let mut room = [0u8; 16384];
    let n = io::read_full(0, &mut script);
    run(&script[..n], &mut mem, &mut bytes, &mut room);
}

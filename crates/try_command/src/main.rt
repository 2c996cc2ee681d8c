// Runs a script of commands on a table and its index, and prints what they answer and what they leave. A step is thirteen bytes: a letter and
// three numbers of four bytes, the high byte first. second/ has the script's meaning and makes the stored input and output.
#![tactic(auto)]

use answer::Refusal;
use command::{Association, Prohibition};
use trial::Order;

// How many words of the memory and bytes of the index are lent, the form of the prohibition that commands are given, how many inclusions it has,
// and how many ids in both lists together.
#[derive(Clone, Copy)]
struct Kept {
    words: u32,
    bytes: u32,
    form: u32,
    inclusions: u32,
    ids: u32,
}

// A letter.
fn say_letter(letter: u8) {
    io::write_all(1, &[letter]);
}

// A number, and a space or the end of the line.
fn say_number(n: u32, end: u8) {
    io::print_decimal(1, n as u64);
    say_letter(end);
}

// The letter for "accepted", by whether the index is the table's: small if it is, large if it is another.
fn first_letter(is_its: Result<bool, Refusal>) -> u32 {
    match is_its {
        Ok(true) => 97,
        Ok(false) => 65,
        Err(refusal) => 63 - 15 * (u32::from(refusal) % 4),
    }
}

// The letter for an answer: the first one, or that of the refusal number behind it.
fn letter_of(mem: &[u32], idx: &[u8], n: u32) -> u8 {
    (first_letter(index::is_index(mem, idx)) % 128 + n % 16) as u8
}

// One more if the word is not 0.
fn counted(n: u32, word: u32) -> u32 {
    n.wrapping_add(u32::from(word != 0))
}

// The word and its place, where it is to be listed and not 0.
fn list_word(place: usize, word: u32, listed: bool) {
    if !listed {
        return;
    }
    if word == 0 {
        return;
    }
    io::print_decimal(1, place as u64);
    say_letter(b':');
    say_number(word, b' ');
}

// A letter, the words of a group where they are to be listed, how many are not 0, and their sum.
fn say_group(letter: u8, mem: &[u32], from: usize, to: usize, listed: bool) {
    io::write_all(1, &[letter, b' ']);
    let mut count = 0;
    let mut sum = 0;
    for i in from..to {
        let word = trial::word_at(mem, i);
        list_word(i - from, word, listed);
        count = counted(count, word);
        sum = trial::mix(sum, word);
    }
    say_number(count, b' ');
    say_number(sum, b'\n');
}

// The whole state: head, elements, processes, assignments, associations, prohibitions, index.
fn say_state(mem: &[u32], idx: &[u8], listed: bool) {
    say_group(b'H', mem, 0, 8, true);
    say_group(b'E', mem, table::KINDS, table::USERS, listed);
    say_group(b'U', mem, table::USERS, table::ASSIGNMENTS, listed);
    say_group(b'A', mem, table::ASSIGNMENTS, table::ASSOCIATIONS, listed);
    say_group(b'S', mem, table::ASSOCIATIONS, table::PROHIBITIONS, listed);
    say_group(b'P', mem, table::PROHIBITIONS, 8193, listed);
    io::write_all(1, b"I ");
    say_number(trial::sum_of(idx), b'\n');
}

// Puts n ids from `first` on behind a list of `at` ids, as far as there is room.
fn append(ids: &mut [u32], at: u32, first: u32, n: u32) {
    for i in 0..n {
        trial::put(ids, at as usize + i as usize, first.wrapping_add(i));
    }
}

// Assign, create class, and the index built.
fn contain(mem: &mut [u32], idx: &mut [u8], o: Order) -> Result<(), Refusal> {
    if o.letter == b'a' {
        return command::assign(mem, idx, o.a, o.b);
    }
    if o.letter == b'b' {
        return index::build(mem, idx);
    }
    command::create_class(mem, idx, o.a)
}

// Deassign, create and delete element.
fn replace(mem: &mut [u32], idx: &mut [u8], o: Order) -> Result<(), Refusal> {
    if o.letter == b'd' {
        return command::deassign(mem, idx, o.a, o.b);
    }
    if o.letter == b'e' {
        return command::create_element(mem, idx, o.a, o.b, o.c);
    }
    command::delete_element(mem, idx, o.a)
}

// The commands about prohibitions: sort, subject and rights, and the form, and so many of the ids as inclusions.
fn prohibit(
    mem: &mut [u32],
    idx: &mut [u8],
    o: Order,
    form: u32,
    n: u32,
    ids: &[u32],
) -> Result<(), Refusal> {
    let (inclusion, exclusion) = ids.split_at(trial::first_of(n, ids));
    let b = Prohibition {
        sort: o.a,
        subject: o.b,
        form,
        rights: o.c,
        inclusion,
        exclusion,
    };
    if o.letter == b'p' {
        return command::create_prohibition(mem, idx, b);
    }
    command::delete_prohibition(mem, idx, b)
}

// The commands about associations and processes, and the empty table.
fn relate(mem: &mut [u32], idx: &mut [u8], o: Order) -> Result<(), Refusal> {
    let a = Association {
        attribute: o.a,
        target: o.b,
        rights: o.c,
    };
    if o.letter == b's' {
        return command::create_association(mem, idx, a);
    }
    if o.letter == b't' {
        return command::delete_association(mem, idx, a);
    }
    if o.letter == b'u' {
        return command::start_process(mem, idx, o.a, o.b);
    }
    if o.letter == b'v' {
        return command::end_process(mem, idx, o.a);
    }
    table::new(mem)
}

// A step that answers.
fn obey(
    mem: &mut [u32],
    idx: &mut [u8],
    o: Order,
    form: u32,
    n: u32,
    ids: &[u32],
) -> Result<(), Refusal> {
    if o.letter < b'd' {
        return contain(mem, idx, o);
    }
    if o.letter < b'p' {
        return replace(mem, idx, o);
    }
    if o.letter < b'r' {
        return prohibit(mem, idx, o, form, n, ids);
    }
    relate(mem, idx, o)
}

// The year's element x is of this kind.
fn kind_for(x: u32) -> u32 {
    if x < 9 {
        return 5;
    }
    if x < 137 {
        return 2;
    }
    if x < 265 {
        return 1;
    }
    if x < 393 {
        return 4;
    }
    3
}

// Container k of the eight that the year's element x can have.
fn container_for(x: u32, k: u32) -> u32 {
    let place = (37 * (x % 1024) + 53 * (k % 8)) % 128;
    if kind_for(x) == 1 {
        return 9 + place;
    }
    if k == 0 {
        return 1 + x % 8;
    }
    if x < 265 {
        return 9 + place;
    }
    265 + place
}

// Where the year's subjects of a sort begin: users, processes, user attributes.
fn subjects_of(sort: u32) -> u32 {
    if sort == 1 {
        return 137;
    }
    if sort == 2 {
        return 1;
    }
    16
}

// The year's command about x, a container y of it, and a number t.
fn chosen(letter: u8, x: u32, y: u32, t: u32) -> Order {
    if letter == b'A' {
        return Order {
            letter: b'a',
            a: x,
            b: t % 514,
            c: 0,
        };
    }
    if letter == b'E' {
        return Order {
            letter: b'e',
            a: x,
            b: t % 8,
            c: y,
        };
    }
    if letter == b'P' {
        return Order {
            letter: b'p',
            a: t % 5,
            b: x,
            c: 1,
        };
    }
    if letter == b'S' {
        return Order {
            letter: b's',
            a: x,
            b: y,
            c: 1 + t % 4,
        };
    }
    if letter == b'c' {
        return Order {
            letter,
            a: x % 12,
            b: 0,
            c: 0,
        };
    }
    if letter == b'e' {
        return Order {
            letter,
            a: x,
            b: kind_for(x),
            c: y,
        };
    }
    if letter < b'p' {
        return Order {
            letter,
            a: x,
            b: y,
            c: 0,
        };
    }
    if letter < b'r' {
        let sort = 1 + t % 3;
        return Order {
            letter,
            a: sort,
            b: subjects_of(sort) % 512 + t / 3 % 16,
            c: t / 48 % 4,
        };
    }
    if letter < b'u' {
        return Order {
            letter,
            a: 9 + t % 64,
            b: 265 + t / 64 % 16,
            c: t / 1024 % 5,
        };
    }
    Order {
        letter,
        a: t % 257,
        b: 137 + x % 128,
        c: 0,
    }
}

// One command of the year, from three numbers below 65,536.
fn live(mem: &mut [u32], idx: &mut [u8], r: u32, s: u32, t: u32) -> u32 {
    let letters = b"aaaaaaaaaaaaaaaaaaaaAAdddddddddddeeeeeeeeeeEffcssssSttpppPqquuvv";
    let x = s % 514;
    let o = chosen(
        letters[(r % 64) as usize],
        x,
        container_for(x, s / 514 % 8),
        t,
    );
    let l = t / 384 % 2;
    trial::number_of(obey(mem, idx, o, t / 192 % 2, 2, &[265 + l, 300 + l, 16 + l]))
}

// What command i of the year adds to the sum: its answer, of each 64th its letter.
fn watched(mem: &[u32], idx: &[u8], i: u32, n: u32) -> u32 {
    if i % 64 != 0 {
        return n;
    }
    u32::from(letter_of(mem, idx, n))
}

// The sum of the answers and the state, after so many commands.
fn say_year(mem: &[u32], idx: &[u8], i: u32, sum: u32, every: u32) {
    if every == 0 {
        return;
    }
    if i % every != 0 {
        return;
    }
    io::write_all(1, b"Y ");
    say_number(i, b' ');
    say_number(sum, b'\n');
    say_state(mem, idx, false);
}

// A year of commands.
fn year(mem: &mut [u32], idx: &mut [u8], seed: u32, count: u32, every: u32) {
    let mut x = seed;
    let mut sum = 0;
    for i in 1..=count {
        let r = trial::mix(x, 0);
        let s = trial::mix(r, 0);
        x = trial::mix(s, 0);
        let n = live(mem, idx, r / 65536, s / 65536, x / 65536);
        sum = trial::mix(sum, watched(mem, idx, i, n));
        say_year(mem, idx, i, sum, every);
    }
}

// The steps that answer nothing. Those that change what is kept are done already.
fn tell(mem: &mut [u32], idx: &mut [u8], o: Order) {
    if o.letter == b'.' {
        say_letter(b'\n');
        return;
    }
    if o.letter == b'=' {
        say_state(mem, idx, o.a == 1);
        return;
    }
    if o.letter == b'W' {
        trial::put(mem, o.a as usize, o.b);
        return;
    }
    if o.letter == b'Y' {
        year(mem, idx, o.a, o.b, o.c);
        return;
    }
    if o.letter == b'Z' {
        idx.fill((o.a % 256) as u8);
    }
}

// One step on what is lent.
fn step(mem: &mut [u32], idx: &mut [u8], o: Order, form: u32, n: u32, ids: &[u32]) {
    if o.letter < b'a' {
        tell(mem, idx, o);
        return;
    }
    let number = trial::number_of(obey(mem, idx, o, form, n, ids));
    say_letter(letter_of(mem, idx, number));
}

// How many ids a step puts behind the lists.
fn listed(o: Order) -> u32 {
    if o.letter == b'I' {
        return o.b;
    }
    if o.letter == b'X' {
        return o.b;
    }
    0
}

// What is kept after a step.
fn kept_after(k: Kept, o: Order) -> Kept {
    let mut kept = k;
    if o.letter == b'L' {
        kept.words = o.a;
        kept.bytes = o.b;
        return kept;
    }
    if o.letter == b'F' {
        kept.form = o.a;
        kept.inclusions = 0;
        kept.ids = 0;
        return kept;
    }
    kept.ids = k.ids.wrapping_add(listed(o));
    if o.letter == b'I' {
        kept.inclusions = kept.ids;
    }
    kept
}

// One step on as much as is lent after it.
fn turn(mem: &mut [u32], idx: &mut [u8], ids: &mut [u32], k: Kept, o: Order) -> Kept {
    append(ids, k.ids, o.a, listed(o));
    let kept = kept_after(k, o);
    let words = trial::first_of(kept.words, mem);
    let bytes = trial::first_of(kept.bytes, idx);
    let n = trial::first_of(kept.ids, ids);
    step(
        &mut mem[..words],
        &mut idx[..bytes],
        o,
        kept.form,
        kept.inclusions,
        &ids[..n],
    );
    kept
}

// All steps of a script.
fn run(script: &[u8], mem: &mut [u32], idx: &mut [u8], ids: &mut [u32]) {
    let mut k = Kept {
        words: 8192,
        bytes: 32768,
        form: 0,
        inclusions: 0,
        ids: 0,
    };
    for s in script.as_chunks::<13>().0 {
        k = turn(mem, idx, ids, k, trial::long_order(s));
    }
}

fn main() {
    let mut script = [0u8; 327680];
    let n = io::read_full(0, &mut script);
    let mut mem = [0u32; 8193];
    let mut idx = [0u8; 32769];
    let mut ids = [0u32; 640];
    run(&script[..n], &mut mem, &mut idx, &mut ids);
}

// Lines of text: a letter, and numbers in decimal, each behind a space.
#![tactic(auto)]

ghost use Rattle.std.specs.Prelude.{[], ◌∷◌, ◌+◌, ◌*◌, ◌≤◌, length};
ghost use Rattle.model.specs.Desk.{digits, numbers, line};
ghost use Rattle.lines.specs.Typing.{Typed};

// Puts a number in decimal, by at most so many digits.
fn put_digits(out: &mut [u8], at: usize, most: usize, n: u32) -> usize
    requires { at + most ≤ length out.old }
    ensures typed { Typed (digits most n) at out.old out.new result }
    ensures upper_bound { result ≤ at + most }
{
    if most == 0 {
        return at;
    }
    if n < 10 {
        out[at] = b'0' + n as u8;
        return at + 1;
    }
    let next = put_digits(out, at, most - 1, n / 10);
    out[next] = b'0' + (n % 10) as u8;
    next + 1
}

// Puts a letter.
fn put_letter(out: &mut [u8], at: usize, letter: u8) -> usize
    requires { at + 1 ≤ length out.old }
    ensures { Typed (letter ∷ []) at out.old out.new result }
{
    out[at] = letter;
    at + 1
}

// Puts numbers, each behind a space, and the end of the line.
fn put_numbers(out: &mut [u8], at: usize, ns: &[u32]) -> usize
    requires { at + 11 * length ns.now + 1 ≤ length out.old }
    ensures { Typed (numbers ns.now) at out.old out.new result }
{
    let mut next = at;
    for n in ns {
        let behind = put_letter(out, next, b' ');
        next = put_digits(out, behind, 10, *n);
    }
    put_letter(out, next, b'\n')
}

// Puts a line, a letter and at most five numbers, in front.
pub fn put_line(out: &mut [u8], letter: u8, ns: &[u32]) -> usize
    requires in_bounds { 64 ≤ length out.old }
    requires ns_len_bound { length ns.now ≤ 5 }
    ensures typed { Typed (line letter ns.now) 0 out.old out.new result }
    ensures upper_bound { result ≤ 57 }
{
    let at = put_letter(out, 0, letter);
    put_numbers(out, at, ns)
}

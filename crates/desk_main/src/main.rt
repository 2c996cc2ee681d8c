// The desk program: reads an image and requests from standard input and prints a line for each, as the crate `desk` says. Requests are read in
// pieces of many whole ones, whatever their number; only the last piece can end with one that is cut short.
#![tactic(auto)]

ghost use Rattle.std.specs.Prelude.{◌≡◌, ◌≤◌, length};

use desk::Opened;

// The numbers of standard input and standard output.
const STDIN_FILENO: i32 = 0;

const STDOUT_FILENO: i32 = 1;

// Bytes of a piece: 819 requests.
const PIECE: usize = 4095;

// Bytes for the lines of a piece: 64 for each request.
const LINES: usize = 52416;

// Reads the length and the image, no byte beyond. Returns how many bytes there were.
fn read_image(input: &mut [u8]) -> usize
    requires { length input.old ≡ 65537 }
    ensures { result ≤ 65537 }
{
    let n = io::read_full(STDIN_FILENO, &mut input[0..2]);
    if n < 2 {
        return n.min(2);
    }
    let end = desk::wanted(input);
    let m = io::read_full(STDIN_FILENO, &mut input[2..end]);
    2 + m.min(65535)
}

// Reads the image and prints the first line. Returns whether requests follow.
fn begin(mem: &mut [u32]) -> bool {
    let mut input = [0u8; 65537];
    let mut out = [0u8; 64];
    let n = read_image(&mut input);
    match desk::begin(mem, &input[0..n], &mut out) {
        Ok(Opened::Open(k, _)) => io::write_all(STDOUT_FILENO, &out[0..k.min(64)]),
        Ok(Opened::Closed(k)) => {
            io::write_all(STDOUT_FILENO, &out[0..k.min(64)]);
            false
        }
        Err(_) => false,
    }
}

// Reads the next piece, answers its requests and prints their lines. Returns how many bytes the piece had.
fn answer_next(mem: &[u32]) -> usize {
    let mut input = [0u8; PIECE];
    let mut out = [0u8; LINES];
    let n = io::read_full(STDIN_FILENO, &mut input);
    let printed = desk::answer_all(mem, &input[0..n], &mut out).unwrap_or(0);
    io::write_all(STDOUT_FILENO, &out[0..printed.min(LINES)]);
    n
}

// A proved loop has to end, and nothing says that the input does: the turns are more than any run uses up.
fn answer_pieces(mem: &[u32]) {
    for _ in 0..u64::MAX {
        if answer_next(mem) < PIECE {
            return;
        }
    }
}

fn main() {
    let mut mem = [0u32; 8192];
    if begin(&mut mem) {
        answer_pieces(&mem);
    }
}

// Numbers of up to 32 bits in bytes, each byte filled from the most significant bit: read and written at a place.
#![tactic(auto)]

ghost use Rattle.std.specs.Prelude.{◌≡◌, ◌+◌, ◌*◌, ◌/◌, ◌%◌, ◌^◌, ◌<◌, ◌≤◌, length};
ghost use Rattle.model.specs.Bits.{bits_of};
ghost use Rattle.bits.specs.Cursor.{reading, told, There, Taken, Written};

// A place in the bits.
#[derive(Clone, Copy)]
pub struct Cursor {
    pub at: usize,
}

// A number, and the place behind it.
#[derive(Clone, Copy)]
pub struct Bits {
    pub value: u32,
    pub next: Cursor,
}

// The t bits of x above its k low ones.
#[tactic(auto, using(crate::proofs::Turns::masked))]
fn chunk(x: u32, k: u32, t: u32) -> u32
    requires { (k < 32) × (t < 32) }
    ensures { result ≡ x / 2 ^ k % 2 ^ t }
{
    (x >> k) & ((1 << t) - 1)
}

// The bits of x with the t bits of c behind them.
fn join(x: u32, c: u32, t: u32) -> u32
    requires { (t ≤ 8) × (x * 2 ^ t + c < 2 ^ 32) }
    ensures { result ≡ x * 2 ^ t + c }
{
    (x << t) + c
}

// The byte b with c in the place of its t bits above its k low ones.
#[tactic(auto, using(crate::proofs::Turns::upper_fits, crate::proofs::Turns::patched_fits, crate::proofs::Turns::patched_is))]
fn patch(b: u8, k: u32, t: u32, c: u32) -> u8
    requires { (t + k ≤ 8) × (c < 2 ^ t) }
    ensures { result ≡ (b / 2 ^ (t + k) * 2 ^ t + c) * 2 ^ k + b % 2 ^ k }
{
    let w = u32::from(b);
    let low = chunk(w, 0, k);
    let high = join(w >> (t + k), c, t);
    let whole = join(high, low, k);
    whole as u8
}

impl Cursor {
    // The n bits of s from here on, of any bytes and at any place; none where the bytes end before.
    pub fn read(self, s: &[u8], n: u32) -> Option<Bits>
        requires { (1 ≤ n) × (n ≤ 32) × (length s.now ≤ 2 ^ 32) }
        ensures { told result ≡ reading (bits_of s.now) self.at n }
    {
        let at = self.at;
        let all = 8 * s.len();
        if all < at {
            return None;
        }
        if all - at < n as usize {
            return None;
        }
        Some(Cursor { at }.take(s, n))
    }

    // The n bits of s from here on, where they are there: a byte's part in each turn.
    pub fn take(self, s: &[u8], n: u32) -> Bits
        requires { There s.now self.at n }
        ensures { Taken s.now self.at n result.value result.next.at }
    {
        let mut value = 0;
        let mut left = n;
        let mut p = self.at;
        // A while: the place moves by as many bits as the turn takes.
        while 0 < left {
            let o = (p % 8) as u32;
            let t = left.min(8 - o);
            let c = chunk(u32::from(s[p / 8]), 8 - o - t, t);
            value = join(value, c, t);
            left -= t;
            p += t as usize;
        }
        Bits {
            value,
            next: Cursor { at: p },
        }
    }

    // Writes the n low bits of v from here on, a byte's part in each turn.
    pub fn write(self, out: &mut [u8], n: u32, v: u32) -> Cursor
        requires { There out.old self.at n }
        ensures { Written out.old out.new self.at n v result.at }
    {
        let mut left = n;
        let mut p = self.at;
        // A while: the place moves by as many bits as the turn takes.
        while 0 < left {
            let o = (p % 8) as u32;
            let t = left.min(8 - o);
            left -= t;
            let c = chunk(v, left, t);
            out[p / 8] = patch(out[p / 8], 8 - o - t, t, c);
            p += t as usize;
        }
        Cursor { at: p }
    }
}

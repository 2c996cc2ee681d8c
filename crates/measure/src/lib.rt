// How many bits the fields of an image take, all counts taken as written, and whether the image has just as many bytes.
#![tactic(auto)]

ghost use Rattle.std.specs.Prelude.{◌≡◌, ◌+◌, ◌*◌, ◌^◌, ◌≤◌, ◌<◌, length};
ghost use Rattle.model.specs.Bits.{bits_of};
ghost use Rattle.model.specs.Image.{other_form};
ghost use Rattle.model.specs.Refusal.{refusal as first_refusal};
ghost use Rattle.answer.specs.Answers.{refusal_in};
ghost use Rattle.measure.specs.Places.{Counted, Reaches, behind as place_behind, up_to};
ghost use Rattle.measure.specs.Sizes.{misfits as does_misfit, strays_from, size_lines};

use answer::Refusal;
use bits::Cursor;

// The bits of the head, and of a record of each group; a prohibition takes 9 more for each id that it lists.
pub const HEAD: usize = 50;

pub const ELEMENT: usize = 12;

pub const ASSIGNMENT: usize = 18;

pub const ASSOCIATION: usize = 50;

pub const PROHIBITION: usize = 50;

const PROCESS: usize = 17;

// No fields take more bytes, whatever the counts say.
const LONGEST: usize = 17925;

// How many of each there are, as the head says.
#[derive(Clone, Copy)]
pub struct Counts {
    pub elements: usize,
    pub assignments: usize,
    pub associations: usize,
    pub prohibitions: usize,
    pub processes: usize,
}

// The counts that the head says.
#[tactic(auto, using(crate::proofs::Passing::counted))]
pub fn head(s: &[u8]) -> Counts
    requires { Reaches s.now 0 50 }
    ensures { Counted (bits_of s.now) result.elements result.assignments result.associations result.prohibitions result.processes }
{
    let elements = Cursor { at: 4 }.take(s, 9);
    let assignments = elements.next.take(s, 11);
    let associations = assignments.next.take(s, 10);
    let prohibitions = associations.next.take(s, 8);
    let processes = prohibitions.next.take(s, 8);
    Counts {
        elements: elements.value as usize,
        assignments: assignments.value as usize,
        associations: associations.value as usize,
        prohibitions: prohibitions.value as usize,
        processes: processes.value as usize,
    }
}

// The place behind n prohibitions, one past all the bits where they end before it.
#[tactic(auto, using(crate::proofs::Passing::none_passed, crate::proofs::Passing::one_passed, crate::proofs::Passing::all_passed))]
pub fn behind(s: &[u8], at: usize, n: usize) -> usize
    requires s_len_bound { length s.now ≤ 2 ^ 32 }
    requires at_bound { at < 2 ^ 32 }
    ensures { result ≡ up_to (8 * length s.now) (place_behind (bits_of s.now) at n) }
{
    let all = 8 * s.len();
    let mut p = at;
    for _ in 0..n {
        if all < p + PROHIBITION {
            return all + 1;
        }
        let inclusions = Cursor { at: p + 44 }.take(s, 3);
        let exclusions = inclusions.next.take(s, 3);
        p = exclusions.next.at + 9 * (inclusions.value as usize + exclusions.value as usize);
    }
    p.min(all + 1)
}

// Whether a bit from a place in the last byte on is set.
#[tactic(auto, using(crate::proofs::Filling::none_left, crate::proofs::Filling::some_left))]
fn strays(s: &[u8], end: usize) -> bool
    requires s_len_bound { length s.now ≤ 2 ^ 32 }
    requires end_bound { end ≤ 8 * length s.now }
    requires s_bound { 8 * length s.now < end + 8 }
    ensures { result ≡ strays_from s.now end }
{
    let left = 8 * s.len() - end;
    if left == 0 {
        return false;
    }
    let filling = Cursor { at: end }.take(s, left as u32);
    0 < filling.value
}

// Whether the image is cut, longer than its fields, or has a filling bit set.
fn misfits(s: &[u8]) -> bool
    requires { length s.now ≤ 2 ^ 32 }
    ensures { result ≡ does_misfit s.now }
{
    let all = 8 * s.len();
    if all < HEAD {
        return true;
    }
    let h = head(s);
    let at = HEAD
        + ELEMENT * h.elements
        + ASSIGNMENT * h.assignments
        + ASSOCIATION * h.associations;
    let end = behind(s, at, h.prohibitions) + PROCESS * h.processes;
    if all < end {
        return true;
    }
    if end + 8 <= all {
        return true;
    }
    strays(s, end)
}

// Whether the image has a first byte, and another form than 1 in it.
#[tactic(auto, using(crate::proofs::Filling::form_taken))]
fn is_other_form(s: &[u8]) -> bool
    requires { 0 < length s.now }
    ensures { result ≡ other_form s.now }
{
    let form = Cursor { at: 0 }.take(&s[0..1], 4);
    form.value != 1
}

// Refused with 11 or 12, the first that holds of the image.
pub fn refusal(s: &[u8]) -> Result<(), Refusal>
    ensures { refusal_in result ≡ first_refusal (size_lines s.now) }
{
    if s.len() == 0 {
        return Err(Refusal::Misfit);
    }
    if is_other_form(s) {
        return Err(Refusal::OtherForm);
    }
    if LONGEST < s.len() {
        return Err(Refusal::Misfit);
    }
    if misfits(s) {
        return Err(Refusal::Misfit);
    }
    Ok(())
}

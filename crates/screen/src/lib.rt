// Whether the records of an image can be laid into the words of a table.
#![tactic(auto)]

ghost use Rattle.std.specs.Prelude.{◌≡◌, ◌&&◌, leb, ◌+◌, ◌*◌, ◌<◌, drop};
ghost use Rattle.model.specs.Bits.{bits_of};
ghost use Rattle.model.specs.Image.{read_element, read_prohibition, read_process, read_group, policy_in};
ghost use Rattle.measure.specs.Places.{Reaches, Uncut, behind};
ghost use Rattle.screen.specs.Stowable.{elements_right, processes_right, all_short, stowable};

use bits::Cursor;

// How many assignments, associations and prohibitions there can be, and how many ids in a list.
const MOST_ASSIGNMENTS: usize = 2000;

const MOST_ASSOCIATIONS: usize = 1000;

const MOST_PROHIBITIONS: usize = 200;

const MOST_LISTED: u32 = 4;

// Whether the n elements at a place are right: each id above the one before it, the first above 0, each kind 1 to 5.
#[tactic(auto, using(crate::proofs::Turns::elements_start, crate::proofs::Turns::no_kind))]
fn are_elements_right(s: &[u8], at: usize, n: usize) -> bool
    requires n_bound { n < 512 }
    requires reaches { Reaches s.now at (12 * n) }
    ensures { result ≡ elements_right (read_group read_element n (drop at (bits_of s.now))).value }
{
    let mut last = 0;
    let mut next = Cursor { at };
    for _ in 0..n {
        let id = next.take(s, 9);
        let kind = id.next.take(s, 3);
        if id.value <= last {
            return false;
        }
        if !kinds::is_kind(kind.value) {
            return false;
        }
        last = id.value;
        next = kind.next;
    }
    true
}

// Whether the n processes at a place are right: each id above the one before it, the first above 0, each user's id not 0.
#[tactic(auto, using(crate::proofs::Turns::processes_start, crate::proofs::Turns::no_user))]
fn are_processes_right(s: &[u8], at: usize, n: usize) -> bool
    requires n_bound { n < 256 }
    requires reaches { Reaches s.now at (17 * n) }
    ensures { result ≡ processes_right (read_group read_process n (drop at (bits_of s.now))).value }
{
    let mut last = 0;
    let mut next = Cursor { at };
    for _ in 0..n {
        let id = next.take(s, 8);
        let user = id.next.take(s, 9);
        if id.value <= last {
            return false;
        }
        if user.value < 1 {
            return false;
        }
        last = id.value;
        next = user.next;
    }
    true
}

// Whether each of the n prohibitions at a place lists at most four inclusions and at most four exclusions.
#[tactic(auto, using(crate::proofs::Short::many_inclusions, crate::proofs::Short::all_short_lem))]
fn are_lists_short(s: &[u8], at: usize, n: usize) -> bool
    requires n_bound { n < 256 }
    requires reaches { Reaches s.now (behind (bits_of s.now) at n) 0 }
    ensures { result ≡ all_short (read_group read_prohibition n (drop at (bits_of s.now))).value }
{
    let mut p = at;
    for _ in 0..n {
        let inclusions = Cursor { at: p + 44 }.take(s, 3);
        let exclusions = inclusions.next.take(s, 3);
        if MOST_LISTED < inclusions.value {
            return false;
        }
        if MOST_LISTED < exclusions.value {
            return false;
        }
        p = exclusions.next.at + 9 * (inclusions.value as usize + exclusions.value as usize);
    }
    true
}

// Whether no group is past its limit.
#[tactic(auto, using(crate::proofs::Short::many_assignments, crate::proofs::Short::many_associations, crate::proofs::Short::by_prohibitions))]
fn is_within_limits(assignments: usize, associations: usize, prohibitions: usize) -> bool
    ensures { result ≡ (leb assignments 2000 && leb associations 1000 && leb prohibitions 200) }
{
    if MOST_ASSIGNMENTS < assignments {
        return false;
    }
    if MOST_ASSOCIATIONS < associations {
        return false;
    }
    prohibitions <= MOST_PROHIBITIONS
}

// Whether the image's records can be laid into the words of a table.
#[tactic(auto, using(crate::proofs::Answers::head_reached, crate::proofs::Answers::past_limits, crate::proofs::Answers::prohibitions_reached, crate::proofs::Answers::processes_reached))]
pub fn is_stowable(s: &[u8]) -> bool
    requires { Uncut s.now }
    ensures { result ≡ stowable (policy_in s.now) }
{
    let h = measure::head(s);
    let prohibitions = measure::HEAD
        + measure::ELEMENT * h.elements
        + measure::ASSIGNMENT * h.assignments
        + measure::ASSOCIATION * h.associations;
    if !is_within_limits(h.assignments, h.associations, h.prohibitions) {
        return false;
    }
    if !are_elements_right(s, measure::HEAD, h.elements) {
        return false;
    }
    if !are_lists_short(s, prohibitions, h.prohibitions) {
        return false;
    }
    let processes = measure::behind(s, prohibitions, h.prohibitions);
    are_processes_right(s, processes, h.processes)
}

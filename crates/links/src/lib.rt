// Whether what a table's records name is there and of the right kinds, no chain of assignments returns to its start, and each element but a class
// is assigned.
#![tactic(auto)]

ghost use Rattle.std.specs.Prelude.{◌≡◌, true, not, ◌≤◌, ◌<◌};
ghost use Rattle.model.specs.Lists.{all_of};
ghost use Rattle.model.specs.Sound.{assignment_pairs, association_pairs, prohibition_pairs, process_pairs, pairs_fit, no_cycle, all_assigned};
ghost use Rattle.model.specs.Image.{names_wrong};
ghost use Rattle.table.specs.Layout.{assignment_count, association_count, prohibition_count};
ghost use Rattle.table.specs.View.{policy_of, assignment_at, association_at, prohibition_at};
ghost use Rattle.table.specs.Facts.{Table};
ghost use Rattle.links.specs.Returning.{owner_fits, are_free, returns_by};
ghost use Rattle.links.specs.Ranks.{lifted, ranks_of, is_above};

// Whether the two of assignment i may be assigned.
#[tactic(auto, unfolding(model::specs::Sound::assignment_pairs))]
fn is_assignment_paired(mem: &[u32], i: usize) -> bool
    requires table { Table mem.now }
    requires i_bound { i < assignment_count mem.now }
    ensures { result ≡ assignment_pairs (policy_of mem.now) (assignment_at mem.now i) }
{
    let child = table::kind_of(mem, table::child_at(mem, i));
    let container = table::kind_of(mem, table::container_at(mem, i));
    kinds::may_be_assigned(child, container)
}

// Whether those of each assignment may.
fn are_assignments_paired(mem: &[u32]) -> bool
    requires { Table mem.now }
    ensures { result ≡ all_of (assignment_pairs (policy_of mem.now)) (policy_of mem.now).assignments }
{
    let n = table::assignment_count(mem);
    (0..n).all(|i| is_assignment_paired(mem, i))
}

// Whether association i is of a user attribute and to an attribute.
#[tactic(auto, unfolding(model::specs::Sound::association_pairs))]
fn is_association_paired(mem: &[u32], i: usize) -> bool
    requires table { Table mem.now }
    requires i_bound { i < association_count mem.now }
    ensures { result ≡ association_pairs (policy_of mem.now) (association_at mem.now i) }
{
    table::kind_of(mem, table::attribute_at(mem, i)) == kinds::USER_ATTRIBUTE
        && kinds::is_attribute(table::kind_of(mem, table::target_at(mem, i)))
}

// Whether each association is.
fn are_associations_paired(mem: &[u32]) -> bool
    requires { Table mem.now }
    ensures { result ≡ all_of (association_pairs (policy_of mem.now)) (policy_of mem.now).associations }
{
    let n = table::association_count(mem);
    (0..n).all(|i| is_association_paired(mem, i))
}

// Whether the subject of prohibition i and what it lists are there, of the right kinds.
fn is_prohibition_paired(mem: &[u32], i: usize) -> bool
    requires table { Table mem.now }
    requires i_bound { i < prohibition_count mem.now }
    ensures { result ≡ prohibition_pairs (policy_of mem.now) (prohibition_at mem.now i) }
{
    let b = prohibition::stored(mem, i);
    !prohibition::names_absent(mem, b) && !prohibition::names_other_kind(mem, b)
}

// Whether those of each prohibition are.
fn are_prohibitions_paired(mem: &[u32]) -> bool
    requires { Table mem.now }
    ensures { result ≡ all_of (prohibition_pairs (policy_of mem.now)) (policy_of mem.now).prohibitions }
{
    let n = table::prohibition_count(mem);
    (0..n).all(|i| is_prohibition_paired(mem, i))
}

// Whether process i is not there or its user is a user.
#[tactic(auto, unfolding(crate::specs::Returning::owner_fits, model::specs::Policy::is_process))]
fn is_owner_right(mem: &[u32], i: u32) -> bool
    requires { Table mem.now }
    ensures { result ≡ owner_fits (policy_of mem.now) i }
{
    let user = table::user_of(mem, i);
    user == 0 || table::kind_of(mem, user) == kinds::USER
}

// Whether each process is of a user.
fn are_processes_paired(mem: &[u32]) -> bool
    requires { Table mem.now }
    ensures { result ≡ all_of (process_pairs (policy_of mem.now)) (policy_of mem.now).processes }
{
    (1..256).all(|i| is_owner_right(mem, i))
}

// Whether each record names what is there, of the right kinds.
#[tactic(auto, unfolding(model::specs::Sound::pairs_fit))]
fn are_pairs_right(mem: &[u32]) -> bool
    requires { Table mem.now }
    ensures { result ≡ pairs_fit (policy_of mem.now) }
{
    are_assignments_paired(mem)
        && are_associations_paired(mem)
        && are_prohibitions_paired(mem)
        && are_processes_paired(mem)
}

// Whether an assignment's container is within its child, by an index's bits.
fn returns_by(mem: &[u32], idx: &[u8]) -> bool
    requires { Table mem.now }
    ensures { result ≡ returns_by idx.now (policy_of mem.now).assignments }
{
    let n = table::assignment_count(mem);
    (0..n).any(|k| index::bit(idx, table::container_at(mem, k), table::child_at(mem, k)))
}

// Lifts the child of assignment i above its container: its rank becomes the next one, unless it is higher already. No rank is above 512.
#[tactic(auto, using(crate::proofs::Lifting::child_low, crate::proofs::Lifting::lift_higher, crate::proofs::Lifting::lift_top, crate::proofs::Lifting::lift_next))]
fn lift(mem: &[u32], ranks: &mut [u32; 512], i: usize)
    requires table { Table mem.now }
    requires i_bound { i < assignment_count mem.now }
    ensures { ranks.new ≡ lifted mem.now i ranks.old }
{
    let rank = ranks[table::container_at(mem, i) as usize];
    let child = table::child_at(mem, i) as usize;
    if rank < ranks[child] {
        return;
    }
    if 511 < rank {
        return;
    }
    ranks[child] = rank + 1;
}

// A rank for each element: every child lifted above its container, in the assignments' order and then against it. Where ids rise along chains, or
// fall, each child is then above its container.
#[tactic(auto, using(crate::proofs::Lifting::risen_none, crate::proofs::Lifting::risen_all, crate::proofs::Lifting::sunk_more, crate::proofs::Lifting::sunk_all))]
fn ranks(mem: &[u32]) -> [u32; 512]
    requires { Table mem.now }
    ensures { result ≡ ranks_of mem.now }
{
    let mut ranks = [0u32; 512];
    let n = table::assignment_count(mem);
    for i in 0..n {
        lift(mem, &mut ranks, i);
    }
    for i in (0..n).rev() {
        lift(mem, &mut ranks, i);
    }
    ranks
}

// Whether each assignment's child has a higher rank than its container.
fn are_above(mem: &[u32], ranks: &[u32; 512]) -> bool
    requires { Table mem.now }
    ensures { result ≡ all_of (is_above ranks.now) (policy_of mem.now).assignments }
{
    let n = table::assignment_count(mem);
    (0..n).all(|i| {
        let child = table::child_at(mem, i) as usize;
        let container = table::container_at(mem, i) as usize;
        ranks[container] < ranks[child]
    })
}

// Whether a chain of assignments returns to its start, where all that they name is there: the table's index tells.
fn has_cycle_by_index(mem: &[u32]) -> bool
    requires table { Table mem.now }
    requires mem_value { pairs_fit (policy_of mem.now) ≡ true }
    ensures { result ≡ not (no_cycle (policy_of mem.now)) }
{
    let mut idx = [0u8; 32768];
    index::fill(mem, &mut idx);
    returns_by(mem, &idx)
}

// Whether a chain of assignments returns to its start, where all that they name is there: none does where each child ranks above its container, and
// else the table's index tells.
fn has_cycle(mem: &[u32]) -> bool
    requires table { Table mem.now }
    requires mem_value { pairs_fit (policy_of mem.now) ≡ true }
    ensures { result ≡ not (no_cycle (policy_of mem.now)) }
{
    !are_above(mem, &ranks(mem)) && has_cycle_by_index(mem)
}

// Whether each element from `from` on and below `to` is not there or a class: none of them asks for an assignment. A kind above a class is none. No
// early exit: the words are looked at together.
fn are_free(mem: &[u32], from: u32, to: u32) -> bool
    requires table { Table mem.now }
    requires le_from { 1 ≤ from }
    requires to_bound { to ≤ 512 }
    ensures { result ≡ are_free (policy_of mem.now) from to }
{
    let mut free = true;
    for x in from..to {
        let k = mem[table::KINDS + x as usize];
        free &= (k == 0) | (kinds::CLASS <= k);
    }
    free
}

// Whether each element but a class is assigned: the children rise, so each id below x is a child or was looked at between two of them.
fn are_all_assigned(mem: &[u32]) -> bool
    requires { Table mem.now }
    ensures { result ≡ all_assigned (policy_of mem.now) }
{
    let n = table::assignment_count(mem);
    let mut x = 1;
    for i in 0..n {
        let c = table::child_at(mem, i);
        if x < c && !are_free(mem, x, c) {
            return false;
        }
        x = c + 1;
    }
    are_free(mem, x, 512)
}

// Whether the table names an unknown element or process, has a wrong kind or pairing, a cycle, or an unassigned element.
#[tactic(auto, unfolding(model::specs::Image::names_wrong))]
pub fn names_wrong(mem: &[u32]) -> bool
    requires { Table mem.now }
    ensures { result ≡ names_wrong (policy_of mem.now) }
{
    !are_pairs_right(mem) || has_cycle(mem) || !are_all_assigned(mem)
}

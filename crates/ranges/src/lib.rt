// Whether a table breaks a rule that can be seen from the fields of its records alone: a field out of range, or a group that does not rise.
#![tactic(auto)]

ghost use Rattle.std.specs.Prelude.{◌≡◌, ◌+◌, ◌*◌, ◌≤◌, ◌<◌, length};
ghost use Rattle.model.specs.Lists.{all_of, rising};
ghost use Rattle.model.specs.Policy.{prohibition_fields};
ghost use Rattle.model.specs.Sound.{assignment_fits, association_fits, prohibition_fits};
ghost use Rattle.model.specs.Image.{breaks_rule};
ghost use Rattle.table.specs.Layout.{association_count, prohibition_count, prohibition_start};
ghost use Rattle.table.specs.View.{inclusion_count, exclusion_count, policy_of, association_at, prohibition_at};
ghost use Rattle.table.specs.Facts.{Table, AtMost};
ghost use Rattle.ranges.specs.Rising.{before_next, records_rise};

use table::{ASSOCIATIONS, PROHIBITIONS};

// How many words an association and a prohibition take.
const ASSOCIATION: usize = 2;

const PROHIBITION: usize = 11;

// Whether the record at a place is before the one a stride behind it, by the first `key` words of each.
#[tactic(auto, using(crate::proofs::InOrder::next_decides))]
fn is_before_next(mem: &[u32], at: usize, stride: usize, key: usize) -> bool
    requires mem_len { length mem.now ≡ 8192 }
    requires key_bound { at + stride + key ≤ 8192 }
    ensures { result ≡ before_next mem.now at stride key }
{
    &mem[at..at + key] < &mem[at + stride..at + stride + key]
}

// Whether the n records of `stride` words from `base` on strictly rise.
#[tactic(auto, using(crate::proofs::InOrder::rise_start, crate::proofs::InOrder::rise_fails, crate::proofs::InOrder::rise_more, crate::proofs::InOrder::rise_all))]
fn are_rising(mem: &[u32], base: usize, stride: usize, n: usize) -> bool
    requires mem_len { length mem.now ≡ 8192 }
    requires n_bound { base + stride * n ≤ 8192 }
    ensures { result ≡ records_rise mem.now base stride n }
{
    for i in 1..n {
        if !is_before_next(mem, base + stride * (i - 1), stride, stride) {
            return false;
        }
    }
    true
}

// How many words of prohibition i count: the first three and the ids that it lists.
fn prohibition_key(mem: &[u32], i: usize) -> usize
    requires table { Table mem.now }
    requires i_bound { i < prohibition_count mem.now }
    ensures { AtMost (3 + (inclusion_count mem.now (prohibition_start i) + exclusion_count mem.now (prohibition_start i))) 11 result }
{
    3 + table::inclusion_count_at(mem, i) + table::exclusion_count_at(mem, i)
}

// Whether the prohibitions strictly rise: each is before the next by those of its words that count. Whatever stands behind them decides nothing.
fn are_prohibitions_rising(mem: &[u32]) -> bool
    requires { Table mem.now }
    ensures { result ≡ rising prohibition_fields (policy_of mem.now).prohibitions }
{
    let n = table::prohibition_count(mem);
    (1..n).all(|i| {
        let at = PROHIBITIONS + PROHIBITION * (i - 1);
        is_before_next(mem, at, PROHIBITION, prohibition_key(mem, i - 1))
    })
}

// Whether each assignment names ids of elements.
fn are_assignments_in_range(mem: &[u32]) -> bool
    requires { Table mem.now }
    ensures { result ≡ all_of assignment_fits (policy_of mem.now).assignments }
{
    let n = table::assignment_count(mem);
    (0..n).all(|i| table::are_element_ids(table::child_at(mem, i), table::container_at(mem, i)))
}

// Whether association i names ids of elements, and has a right.
#[tactic(auto, unfolding(model::specs::Sound::association_fits, model::specs::Policy::is_right_set))]
fn is_association_in_range(mem: &[u32], i: usize) -> bool
    requires table { Table mem.now }
    requires i_bound { i < association_count mem.now }
    ensures { result ≡ association_fits (association_at mem.now i) }
{
    table::are_element_ids(table::attribute_at(mem, i), table::target_at(mem, i))
        && 0 < table::rights_at(mem, i)
}

// Whether each association does.
fn are_associations_in_range(mem: &[u32]) -> bool
    requires { Table mem.now }
    ensures { result ≡ all_of association_fits (policy_of mem.now).associations }
{
    let n = table::association_count(mem);
    (0..n).all(|i| is_association_in_range(mem, i))
}

// Whether the fields of prohibition i are in range, it has a right, and its lists are as they must be.
fn is_prohibition_in_range(mem: &[u32], i: usize) -> bool
    requires table { Table mem.now }
    requires i_bound { i < prohibition_count mem.now }
    ensures { result ≡ prohibition_fits (prohibition_at mem.now i) }
{
    let b = prohibition::stored(mem, i);
    !prohibition::is_ill_formed(b) && !prohibition::is_out_of_range(b)
}

// Whether those of each prohibition are.
fn are_prohibitions_in_range(mem: &[u32]) -> bool
    requires { Table mem.now }
    ensures { result ≡ all_of prohibition_fits (policy_of mem.now).prohibitions }
{
    let n = table::prohibition_count(mem);
    (0..n).all(|i| is_prohibition_in_range(mem, i))
}

// Whether the table breaks such a rule. Elements and processes stand in the words by their ids: they cannot. A table's assignments rise, and its
// counts are within the limits.
#[tactic(auto, using(crate::proofs::Rules::rule_by_parts))]
pub fn breaks_rule(mem: &[u32]) -> bool
    requires { Table mem.now }
    ensures { result ≡ breaks_rule (policy_of mem.now) }
{
    !are_assignments_in_range(mem)
        || !are_associations_in_range(mem)
        || !are_prohibitions_in_range(mem)
        || !are_rising(
            mem,
            ASSOCIATIONS,
            ASSOCIATION,
            table::association_count(mem),
        )
        || !are_prohibitions_rising(mem)
}

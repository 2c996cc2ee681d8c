// What names an element or a process: assignments, associations, prohibitions and processes.
#![tactic(auto)]

ghost use Rattle.std.specs.Prelude.{◌≡◌, ◌||◌, ◌≤◌, ◌<◌, eqb};
ghost use Rattle.model.specs.Lists.{member};
ghost use Rattle.model.specs.Sound.{listed};
ghost use Rattle.model.specs.Command.{only_one, prohibition_names_element, in_use, process_in_use};
ghost use Rattle.table.specs.Layout.{association_count, prohibition_count};
ghost use Rattle.table.specs.View.{policy_of, association_at, prohibition_at};
ghost use Rattle.table.specs.Facts.{Table};
ghost use Rattle.named.specs.Uses.{is_container, is_associated, is_prohibited, is_owner, names_process};

// The sort of a subject that is a process.
const BY_PROCESS: u32 = 2;

// Whether x has just one assignment.
pub fn has_one_assignment(mem: &[u32], x: u32) -> bool
    requires table { Table mem.now }
    requires x_bound { x < 512 }
    ensures { result ≡ only_one (policy_of mem.now) x }
{
    let from = table::first_of(mem, x);
    table::first_of(mem, x + 1) == from + 1
}

// Whether something is assigned to x.
fn is_container(mem: &[u32], x: u32) -> bool
    requires { Table mem.now }
    ensures { result ≡ is_container (policy_of mem.now) x }
{
    let n = table::assignment_count(mem);
    (0..n).any(|i| table::container_at(mem, i) == x)
}

// Whether association i names x.
fn associates(mem: &[u32], i: usize, x: u32) -> bool
    requires table { Table mem.now }
    requires i_bound { i < association_count mem.now }
    ensures { result ≡ (eqb (association_at mem.now i).attribute x || eqb (association_at mem.now i).target x) }
{
    table::attribute_at(mem, i) == x || table::target_at(mem, i) == x
}

// Whether an association names x.
fn is_associated(mem: &[u32], x: u32) -> bool
    requires { Table mem.now }
    ensures { result ≡ is_associated (policy_of mem.now) x }
{
    let n = table::association_count(mem);
    (0..n).any(|i| associates(mem, i, x))
}

// Whether prohibition i lists x.
fn lists(mem: &[u32], i: usize, x: u32) -> bool
    requires table { Table mem.now }
    requires i_bound { i < prohibition_count mem.now }
    ensures { result ≡ member x (listed (prohibition_at mem.now i)) }
{
    let n = table::inclusion_count_at(mem, i) + table::exclusion_count_at(mem, i);
    (0..n).any(|k| table::listed_at(mem, i, k) == x)
}

// Whether prohibition i names element x: as its subject, or in a list.
#[tactic(auto, unfolding(model::specs::Command::prohibition_names_element))]
fn prohibits(mem: &[u32], i: usize, x: u32) -> bool
    requires table { Table mem.now }
    requires i_bound { i < prohibition_count mem.now }
    ensures { result ≡ prohibition_names_element x (prohibition_at mem.now i) }
{
    table::sort_at(mem, i) != BY_PROCESS && table::subject_at(mem, i) == x || lists(mem, i, x)
}

// Whether a prohibition names element x.
fn is_prohibited(mem: &[u32], x: u32) -> bool
    requires { Table mem.now }
    ensures { result ≡ is_prohibited (policy_of mem.now) x }
{
    let n = table::prohibition_count(mem);
    (0..n).any(|i| prohibits(mem, i, x))
}

// Whether a process is of user x.
fn is_owner(mem: &[u32], x: u32) -> bool
    requires table { Table mem.now }
    requires le_x { 1 ≤ x }
    ensures { result ≡ is_owner (policy_of mem.now) x }
{
    (1..256).any(|i| table::user_of(mem, i) == x)
}

// Whether something is assigned to element x, or an association, a prohibition or a process names it.
#[tactic(auto, unfolding(model::specs::Command::in_use, crate::specs::Uses::is_container, crate::specs::Uses::is_associated, crate::specs::Uses::is_prohibited, crate::specs::Uses::is_owner))]
pub fn is_in_use(mem: &[u32], x: u32) -> bool
    requires table { Table mem.now }
    requires le_x { 1 ≤ x }
    ensures { result ≡ in_use (policy_of mem.now) x }
{
    is_container(mem, x) || is_associated(mem, x) || is_prohibited(mem, x) || is_owner(mem, x)
}

// Whether the subject of prohibition k is process i.
fn prohibits_process(mem: &[u32], k: usize, i: u32) -> bool
    requires table { Table mem.now }
    requires k_bound { k < prohibition_count mem.now }
    ensures { result ≡ names_process i (prohibition_at mem.now k) }
{
    table::sort_at(mem, k) == BY_PROCESS && table::subject_at(mem, k) == i
}

// Whether a prohibition names process i.
pub fn is_process_in_use(mem: &[u32], i: u32) -> bool
    requires { Table mem.now }
    ensures { result ≡ process_in_use (policy_of mem.now) i }
{
    let n = table::prohibition_count(mem);
    (0..n).any(|k| prohibits_process(mem, k, i))
}

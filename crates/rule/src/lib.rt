// The parts of the rule, for one right asked over one element: a class, an association that offers it, a prohibition that restricts. What is within
// what comes from rows: the bits of an index, or the marks of climbs, a row for the user and one for each element that is asked about.
#![tactic(auto)]

ghost use Rattle.std.specs.Prelude.{◌≡◌, Bool, true, false, cond, List, ℕ, ◌+◌, ◌≤◌, ◌<◌};
ghost use Rattle.model.specs.Policy.{has_right};
ghost use Rattle.model.specs.Rule.{disjunctive_range, conjunctive_range, in_range, is_subject, restricts, restricted_by};
ghost use Rattle.table.specs.Layout.{association_count, prohibition_count, prohibition_start};
ghost use Rattle.table.specs.View.{policy_of, association_at, prohibition_at};
ghost use Rattle.table.specs.Facts.{Table};
ghost use Rattle.rule.specs.Sight.{mark_at, seen};
ghost use Rattle.rule.specs.Parts.{class_of, offers, any_listed};

// One right asked over one element: the process and its user, the element and the right; and which row is the user's, which the element's.
#[derive(Clone, Copy)]
pub struct Asking {
    pub process: u32,
    pub user: u32,
    pub element: u32,
    pub right: u32,
    pub by: u32,
    pub over: u32,
}

// Mark y of row x, a bit in 64 bytes a row.
#[tactic(auto, using(crate::proofs::Sighted::mark_read, crate::proofs::Sighted::mark_far))]
fn mark(rows: &[u8], x: u32, y: u32) -> bool
    ensures { result ≡ mark_at rows.now x y }
{
    y < 512 && index::bit(rows, x, y)
}

// Rows that say of an element what it is within: those of an index, or those that climbs made.
pub trait Sight {
    ghost rows: { Self → List ℕ };

    ghost indexed: { Self → Bool };

    // Whether row x says y.
    fn sees(&self, x: u32, y: u32) -> bool
        ensures { result ≡ seen (rows self.now) (indexed self.now) x y };

    // The user's row.
    fn row_of_user(&self, user: u32) -> u32
        ensures { result ≡ cond (indexed self.now) user 0 };

    // The row of element e, the argument at position k.
    fn row_of_argument(&self, e: u32, k: u32) -> u32
        ensures { result ≡ cond (indexed self.now) e k };
}

// The rows of an index, by their bits: they are numbered by its elements.
#[derive(Clone, Copy)]
pub struct Indexed<'a> {
    pub rows: &'a [u8],
}

impl Sight for Indexed<'_> {
    ghost rows = { λ s. s.rows.now };

    ghost indexed = { λ s. true };

    fn sees(&self, x: u32, y: u32) -> bool {
        index::bit(self.rows, x, y)
    }

    fn row_of_user(&self, user: u32) -> u32 {
        user
    }

    fn row_of_argument(&self, e: u32, _k: u32) -> u32 {
        e
    }
}

// The rows of climbs, by their marks: row 0 is the user's, and those behind it are numbered by the arguments' positions.
#[derive(Clone, Copy)]
pub struct Climbed<'a> {
    pub rows: &'a [u8],
}

impl Sight for Climbed<'_> {
    ghost rows = { λ s. s.rows.now };

    ghost indexed = { λ s. false };

    fn sees(&self, x: u32, y: u32) -> bool {
        mark(self.rows, x, y)
    }

    fn row_of_user(&self, _user: u32) -> u32 {
        0
    }

    fn row_of_argument(&self, _e: u32, k: u32) -> u32 {
        k
    }
}

// Whether right r is in the set.
#[tactic(auto, using(crate::proofs::Sighted::right_read))]
pub fn has_right(rights: u32, r: u32) -> bool
    requires { r < 32 }
    ensures { result ≡ has_right rights r }
{
    (rights >> r) % 2 == 1
}

// Whether c is a class that the element of row x is within.
#[tactic(auto, using(crate::proofs::Parts::class_within, crate::proofs::Parts::class_other))]
pub fn is_class_of<S: Sight>(mem: &[u32], rows: &S, x: u32, c: u32) -> bool
    requires { Table mem.now }
    ensures { result ≡ class_of (seen (S.rows rows.now) (S.indexed rows.now) x) (policy_of mem.now) c }
{
    table::kind_of(mem, c) == 5 && rows.sees(x, c)
}

// Whether association i gives the user the right over the element, in the classes that its target is within.
#[tactic(auto, using(crate::proofs::Parts::else_is, crate::proofs::Parts::offers_within, crate::proofs::Parts::then_is, crate::proofs::Parts::offers_not))]
pub fn is_offered<S: Sight>(mem: &[u32], rows: &S, q: Asking, i: usize) -> bool
    requires table { Table mem.now }
    requires i_bound { i < association_count mem.now }
    requires right_bound { q.right < 32 }
    ensures { result ≡ offers (seen (S.rows rows.now) (S.indexed rows.now) q.by) (seen (S.rows rows.now) (S.indexed rows.now) q.over) q.right (association_at mem.now i) }
{
    has_right(table::rights_at(mem, i), q.right)
        && rows.sees(q.by, table::attribute_at(mem, i))
        && rows.sees(q.over, table::target_at(mem, i))
}

// Whether row x says so, or says not so, of some of n ids that prohibition i lists, from id `from` on.
fn is_any_listed<S: Sight>(
    mem: &[u32],
    rows: &S,
    x: u32,
    i: usize,
    from: usize,
    n: usize,
    so: bool,
) -> bool
    requires table { Table mem.now }
    requires i_bound { i < prohibition_count mem.now }
    requires n_bound { from + n ≤ 8 }
    ensures { result ≡ any_listed (seen (S.rows rows.now) (S.indexed rows.now) x) so mem.now (prohibition_start i) from n }
{
    (0..n).any(|k| rows.sees(x, table::listed_at(mem, i, from + k)) == so)
}

// "within some listed inclusion, or outside some listed exclusion"
#[tactic(auto, using(crate::proofs::Ranges::disjunctive_within))]
fn is_in_disjunctive<S: Sight>(mem: &[u32], rows: &S, x: u32, i: usize) -> bool
    requires table { Table mem.now }
    requires i_bound { i < prohibition_count mem.now }
    ensures { result ≡ disjunctive_range (seen (S.rows rows.now) (S.indexed rows.now) x) (prohibition_at mem.now i) }
{
    let n = table::inclusion_count_at(mem, i);
    is_any_listed(mem, rows, x, i, 0, n, true)
        || is_any_listed(mem, rows, x, i, n, table::exclusion_count_at(mem, i), false)
}

// "within every inclusion and outside every exclusion"
fn is_in_conjunctive<S: Sight>(mem: &[u32], rows: &S, x: u32, i: usize) -> bool
    requires table { Table mem.now }
    requires i_bound { i < prohibition_count mem.now }
    ensures { result ≡ conjunctive_range (seen (S.rows rows.now) (S.indexed rows.now) x) (prohibition_at mem.now i) }
{
    let n = table::inclusion_count_at(mem, i);
    !is_any_listed(mem, rows, x, i, 0, n, false)
        && !is_any_listed(mem, rows, x, i, n, table::exclusion_count_at(mem, i), true)
}

// Whether element e, whose row is x, is in the range of prohibition i.
fn is_in_range<S: Sight>(mem: &[u32], rows: &S, e: u32, x: u32, i: usize) -> bool
    requires table { Table mem.now }
    requires i_bound { i < prohibition_count mem.now }
    ensures { result ≡ in_range (seen (S.rows rows.now) (S.indexed rows.now) x) (policy_of mem.now) e (prohibition_at mem.now i) }
{
    if table::kind_of(mem, e) == 5 {
        false
    } else if table::form_at(mem, i) == 0 {
        is_in_disjunctive(mem, rows, x, i)
    } else {
        is_in_conjunctive(mem, rows, x, i)
    }
}

// Whether the subject of prohibition i is the process, its user, or an attribute that the user is within.
#[tactic(auto, using(crate::proofs::Restrictions::subject_user, crate::proofs::Restrictions::subject_process, crate::proofs::Restrictions::subject_attribute, crate::proofs::Restrictions::subject_none))]
fn is_subject<S: Sight>(mem: &[u32], rows: &S, q: Asking, i: usize) -> bool
    requires table { Table mem.now }
    requires i_bound { i < prohibition_count mem.now }
    ensures { result ≡ is_subject (seen (S.rows rows.now) (S.indexed rows.now) q.by) q.process q.user (prohibition_at mem.now i) }
{
    let subject = table::subject_at(mem, i);
    match table::sort_at(mem, i) {
        1 => subject == q.user,
        2 => subject == q.process,
        3 => rows.sees(q.by, subject),
        _ => false,
    }
}

// Whether prohibition i restricts the process, the right and the element.
pub fn is_restricting<S: Sight>(mem: &[u32], rows: &S, q: Asking, i: usize) -> bool
    requires table { Table mem.now }
    requires i_bound { i < prohibition_count mem.now }
    requires right_bound { q.right < 32 }
    ensures { result ≡ restricts (seen (S.rows rows.now) (S.indexed rows.now) q.by) (seen (S.rows rows.now) (S.indexed rows.now) q.over) (policy_of mem.now) q.process q.user q.right q.element (prohibition_at mem.now i) }
{
    has_right(table::prohibition_rights_at(mem, i), q.right)
        && is_subject(mem, rows, q, i)
        && is_in_range(mem, rows, q.element, q.over, i)
}

// Whether some prohibition restricts the process, the right and the element.
pub fn is_restricted<S: Sight>(mem: &[u32], rows: &S, q: Asking) -> bool
    requires table { Table mem.now }
    requires right_bound { q.right < 32 }
    ensures { result ≡ restricted_by (seen (S.rows rows.now) (S.indexed rows.now) q.by) (seen (S.rows rows.now) (S.indexed rows.now) q.over) (policy_of mem.now) q.process q.user q.right q.element }
{
    let n = table::prohibition_count(mem);
    (0..n).any(|i| is_restricting(mem, rows, q, i))
}

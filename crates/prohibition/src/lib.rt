// What a prohibition that a command is given can be refused for. Its lists are lent and may be of any length.
#![tactic(auto)]

ghost use Rattle.std.specs.Prelude.{◌≡◌, [], ◌≤◌, ◌<◌};
ghost use Rattle.model.specs.Lists.{all_of, rising_ids};
ghost use Rattle.model.specs.Policy.{is_element_id, is_sort, is_there, has_prohibition};
ghost use Rattle.model.specs.Sound.{subject_in_range, lists_fit, subject_there, subject_of_kind};
ghost use Rattle.model.specs.Command.{bad_prohibition, absent_in, wrong_kind_in, ill_formed};
ghost use Rattle.table.specs.Layout.{prohibition_count};
ghost use Rattle.table.specs.View.{policy_of, prohibition_at};
ghost use Rattle.table.specs.Facts.{Table};
ghost use Rattle.store.specs.Given.{prohibition_of};
ghost use Rattle.store.specs.ProhibitionWords.{prohibition};
ghost use Rattle.prohibition.specs.Lists.{are_attributes};

use kinds::{USER, USER_ATTRIBUTE};
use store::Prohibition;

// The sorts of subjects.
const BY_USER: u32 = 1;

const BY_PROCESS: u32 = 2;

const BY_ATTRIBUTE: u32 = 3;

// How many ids a list can have.
const MOST_LISTED: usize = 4;

// Prohibition i of the table, its lists lent from the words: its ids stand behind the first three words of its record.
pub fn stored(mem: &[u32], i: usize) -> Prohibition<'_>
    requires table { Table mem.now }
    requires i_bound { i < prohibition_count mem.now }
    ensures { prohibition_of result ≡ prohibition_at mem.now i }
{
    let from = table::PROHIBITIONS + 11 * i + 3;
    let middle = from + table::inclusion_count_at(mem, i);
    let to = middle + table::exclusion_count_at(mem, i);
    Prohibition {
        sort: table::sort_at(mem, i),
        subject: table::subject_at(mem, i),
        form: table::form_at(mem, i),
        rights: table::prohibition_rights_at(mem, i),
        inclusion: &mem[from..middle],
        exclusion: &mem[middle..to],
    }
}

// Each id of the list is one of an element.
fn are_ids(list: &[u32]) -> bool
    ensures { result ≡ all_of is_element_id list.now }
{
    list.iter().all(|x| table::is_element_id(*x))
}

// Each element of the list is there.
fn are_there(mem: &[u32], list: &[u32]) -> bool
    requires { Table mem.now }
    ensures { result ≡ all_of (is_there (policy_of mem.now)) list.now }
{
    list.iter().all(|x| table::is_there(mem, *x))
}

// Each element of the list is an attribute.
fn are_attributes(mem: &[u32], list: &[u32]) -> bool
    requires { Table mem.now }
    ensures { result ≡ are_attributes (policy_of mem.now) list.now }
{
    list.iter()
        .all(|x| kinds::is_attribute(table::kind_of(mem, *x)))
}

// The list strictly rises.
fn is_rising(list: &[u32]) -> bool
    ensures { result ≡ rising_ids list.now }
{
    list.is_sorted_by(|a, b| a < b)
}

// s is the sort of a subject, 1 to 3.
#[tactic(auto, unfolding(model::specs::Policy::is_sort))]
fn is_sort(s: u32) -> bool
    ensures { result ≡ is_sort s }
{
    (BY_USER..=BY_ATTRIBUTE).contains(&s)
}

// The subject is an id of what its sort says.
#[tactic(auto, unfolding(model::specs::Sound::subject_in_range))]
fn is_subject_in_range(sort: u32, subject: u32) -> bool
    ensures { result ≡ subject_in_range (prohibition sort subject 0 0 [] []) }
{
    if sort == BY_PROCESS {
        table::is_process_id(subject)
    } else {
        table::is_element_id(subject)
    }
}

// Whether a number that the prohibition is given by is out of range. The rights play no part.
#[tactic(auto, using(model::proofs::Truth::all_append), unfolding(model::specs::Command::bad_prohibition, model::specs::Sound::subject_in_range, model::specs::Policy::is_form))]
pub fn is_out_of_range(b: Prohibition) -> bool
    ensures { result ≡ bad_prohibition (record (prohibition_of b.entry) { rights = 0 }) }
{
    !is_sort(b.sort)
        || 1 < b.form
        || !is_subject_in_range(b.sort, b.subject)
        || !are_ids(b.inclusion)
        || !are_ids(b.exclusion)
}

// Whether the subject is there.
#[tactic(auto, unfolding(model::specs::Sound::subject_there, model::specs::Policy::is_process))]
fn is_subject_there(mem: &[u32], sort: u32, subject: u32) -> bool
    requires { Table mem.now }
    ensures { result ≡ subject_there (policy_of mem.now) (prohibition sort subject 0 0 [] []) }
{
    if sort == BY_PROCESS {
        table::user_of(mem, subject) != 0
    } else {
        table::is_there(mem, subject)
    }
}

// Whether the subject or a listed attribute is not there. Neither form nor rights play a part.
#[tactic(auto, using(model::proofs::Truth::all_append), unfolding(model::specs::Command::absent_in, model::specs::Sound::subject_there))]
pub fn names_absent(mem: &[u32], b: Prohibition) -> bool
    requires { Table mem.now }
    ensures { result ≡ absent_in (policy_of mem.now) (record (prohibition_of b.entry) { form = 0; rights = 0 }) }
{
    !is_subject_there(mem, b.sort, b.subject)
        || !are_there(mem, b.inclusion)
        || !are_there(mem, b.exclusion)
}

// Whether the subject is of the kind that its sort says.
#[tactic(auto, unfolding(model::specs::Sound::subject_of_kind))]
fn is_subject_of_kind(mem: &[u32], sort: u32, subject: u32) -> bool
    requires { Table mem.now }
    ensures { result ≡ subject_of_kind (policy_of mem.now) (prohibition sort subject 0 0 [] []) }
{
    match sort {
        BY_PROCESS => true,
        BY_USER => table::kind_of(mem, subject) == USER,
        _ => table::kind_of(mem, subject) == USER_ATTRIBUTE,
    }
}

// Whether the subject or a listed attribute is of another kind. Neither form nor rights play a part.
#[tactic(auto, using(model::proofs::Truth::all_append), unfolding(model::specs::Command::wrong_kind_in, model::specs::Sound::subject_of_kind, crate::specs::Lists::are_attributes))]
pub fn names_other_kind(mem: &[u32], b: Prohibition) -> bool
    requires { Table mem.now }
    ensures { result ≡ wrong_kind_in (policy_of mem.now) (record (prohibition_of b.entry) { form = 0; rights = 0 }) }
{
    !is_subject_of_kind(mem, b.sort, b.subject)
        || !are_attributes(mem, b.inclusion)
        || !are_attributes(mem, b.exclusion)
}

// Whether the lists are as a prohibition's must be: at most four ids each, each strictly rising, not both empty.
#[tactic(auto, using(crate::proofs::Empty::some_listed), unfolding(model::specs::Sound::lists_fit))]
fn do_lists_fit(inclusion: &[u32], exclusion: &[u32]) -> bool
    ensures { result ≡ lists_fit (prohibition 0 0 0 0 inclusion.now exclusion.now) }
{
    inclusion.len() <= MOST_LISTED
        && exclusion.len() <= MOST_LISTED
        && is_rising(inclusion)
        && is_rising(exclusion)
        && 0 < inclusion.len() + exclusion.len()
}

// Whether the right set is empty or the lists do not fit. Neither subject nor form play a part.
#[tactic(auto, unfolding(model::specs::Command::ill_formed, model::specs::Sound::lists_fit))]
pub fn is_ill_formed(b: Prohibition) -> bool
    ensures { result ≡ ill_formed (record (prohibition_of b.entry) { sort = 0; subject = 0; form = 0 }) }
{
    b.rights == 0 || !do_lists_fit(b.inclusion, b.exclusion)
}

// Whether the prohibition is there, by its exact fields: none has a list of more than four.
#[tactic(auto, using(crate::proofs::TooLong::long_inclusion_absent, crate::proofs::TooLong::long_exclusion_absent))]
pub fn is_there(mem: &[u32], b: Prohibition) -> bool
    requires table { Table mem.now }
    requires sort_bound { b.sort ≤ 3 }
    requires subject_bound { b.subject < 512 }
    requires form_bound { b.form ≤ 1 }
    ensures { result ≡ has_prohibition (policy_of mem.now) (prohibition_of b.entry) }
{
    b.inclusion.len() <= MOST_LISTED
        && b.exclusion.len() <= MOST_LISTED
        && store::has_prohibition(mem, b)
}

// What a call answers where it refuses: why, and the number that stands for it.
#![tactic(auto)]

ghost use Rattle.std.specs.Prelude.{◌≡◌, Some};
ghost use Rattle.answer.specs.Answers.{number_of, text_of};

use std::error::Error;
use std::fmt;

// Why a call is refused. Where several reasons hold, the first of them in this order is given.
#[derive(Clone, Copy, Debug, PartialEq, Eq)]
pub enum Refusal {
    // The memory is not as long as a table, or holds none.
    NoTable,
    // A number is none that the call takes, or the index is not as long as an index.
    OutOfRange,
    // What is to be added is there already.
    AlreadyThere,
    // What is named is not there.
    NotThere,
    // A kind, or a pairing of kinds, is not allowed.
    WrongKind,
    // A set of rights is empty, or lists are not as they must be.
    IllFormed,
    // The assignment would close a cycle.
    ClosesCycle,
    // It is the child's only assignment.
    OnlyAssignment,
    // Something names what is to be removed.
    InUse,
    // There are as many as there can be, or what was lent to be written is too short.
    NoRoom,
    // The image is of another form.
    OtherForm,
    // The image is shorter or longer than its fields, or has a filling bit set.
    Misfit,
    // A count, a field or an order in the image breaks a rule.
    BreaksRule,
    // The image names what is not there or of a wrong kind, has a cycle, or an element that is not assigned.
    NamesWrong,
}

// The number of a refusal, 1 to 14.
impl From<Refusal> for u32 {
    ghost from_gives = { λ refusal number. number ≡ number_of refusal };

    fn from(refusal: Refusal) -> u32 {
        match refusal {
            Refusal::NoTable => 1,
            Refusal::OutOfRange => 2,
            Refusal::AlreadyThere => 3,
            Refusal::NotThere => 4,
            Refusal::WrongKind => 5,
            Refusal::IllFormed => 6,
            Refusal::ClosesCycle => 7,
            Refusal::OnlyAssignment => 8,
            Refusal::InUse => 9,
            Refusal::NoRoom => 10,
            Refusal::OtherForm => 11,
            Refusal::Misfit => 12,
            Refusal::BreaksRule => 13,
            Refusal::NamesWrong => 14,
        }
    }
}

// What a person is told of a refusal.
fn text(refusal: Refusal) -> &'static str
    ensures { result.now ≡ text_of refusal }
{
    match refusal {
        Refusal::NoTable => "the memory holds no table",
        Refusal::OutOfRange => "a number is out of range",
        Refusal::AlreadyThere => "it is there already",
        Refusal::NotThere => "what is named is not there",
        Refusal::WrongKind => "the kinds do not allow it",
        Refusal::IllFormed => "no rights, or lists that do not fit",
        Refusal::ClosesCycle => "it would close a cycle",
        Refusal::OnlyAssignment => "it is the only assignment",
        Refusal::InUse => "it is in use",
        Refusal::NoRoom => "there is no room",
        Refusal::OtherForm => "the image is of another form",
        Refusal::Misfit => "the image is longer or shorter than its fields",
        Refusal::BreaksRule => "the image breaks a rule",
        Refusal::NamesWrong => "the image names what it must not",
    }
}

impl fmt::Display for Refusal {
    ghost output = { λ refusal. Some (text_of refusal) };

    fn fmt<W: fmt::Write>(&self, f: &mut fmt::Formatter<W>) -> fmt::Result {
        f.write_str(text(*self))
    }
}

impl Error for Refusal {}

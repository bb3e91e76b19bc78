//! Laws of the operations on values.
//!
//! Each function has a law as its contract, over the definitions that the operations cite.

ghost use Rattle.std.specs.Prelude.{◌≡◌, ◌≤◌, ◌-◌, min, max, Bool, true, List};
ghost use Rattle.std.specs.List.{count_by};
ghost use Rattle.rp_operations.specs.Laws.{IsClass, exchanged};
ghost use Rattle.rp_operations.specs.Operations.{all_within, common, compare, less, same, set_union};
ghost use Rattle.rp_value.specs.declared.value.Value.{Value};

/// `:=:` says the same of two values in either order.
#[tactic(auto, using(crate::proofs::Swapped::same_swapped))]
pub fn same_of_exchanged()
    ensures { (x y : Value) → same y x ≡ same x y }
{}

/// Of two values in the other order, less is greater, and all else is as it was.
#[tactic(auto, using(crate::proofs::Swapped::compare_exchanged))]
pub fn compared_exchanged()
    ensures { (x y : Value) → compare y x ≡ exchanged (compare x y) }
{}

/// How many of a class are in the union of a SET and others: all of the left, or else one where the right has one.
#[tactic(auto, using(crate::proofs::Counts::union_count))]
pub fn union_counts()
    ensures { (p : Value → Bool) → IsClass p → (xs ys : List Value) → count_by p (set_union xs ys) ≡ max (count_by p xs) (min 1 (count_by p ys)) }
{}

/// As many of a class are in the intersection as on the side that has fewer.
#[tactic(auto, using(crate::proofs::Counts::common_count))]
pub fn intersection_counts()
    ensures { (p : Value → Bool) → IsClass p → (xs ys : List Value) → count_by p (common xs ys) ≡ min (count_by p xs) (count_by p ys) }
{}

/// As many of a class are in the difference as the left has more than the right.
#[tactic(auto, using(crate::proofs::Counts::less_count))]
pub fn difference_counts()
    ensures { (p : Value → Bool) → IsClass p → (xs ys : List Value) → count_by p (less xs ys) ≡ count_by p xs - count_by p ys }
{}

/// What lies within has at most as many of each class.
#[tactic(auto, using(crate::proofs::Counts::within_count))]
pub fn within_counts()
    ensures { (p : Value → Bool) → IsClass p → (xs ys : List Value) → all_within xs ys ≡ true → count_by p xs ≤ count_by p ys }
{}

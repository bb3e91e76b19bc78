//! Laws of the operators on aggregates (ISO 10303-11:1994, 12.6): how many of a class among the elements of both sides a result has.
//!
//! A class among some values is those of them that are the same as one another and as none of the others. So the other elements
//! have their classes where some are `?`, and where they are of several kinds.

ghost use Rattle.std.specs.Prelude.{◌≡◌, ◌≤◌, ◌<◌, ◌+◌, ◌-◌, ◌↔◌, min, max, Bool, true, false, List, ◌++◌, Contains};
ghost use Rattle.std.specs.List.{count_by, list_all};
ghost use Rattle.rp_numbers.specs.declared.Logical.TheVariants.{False, True};
ghost use Rattle.rp_operations.specs.Operations.{all_within, common, difference, intersection, is_element, is_same, is_within, less, set_union, union};
ghost use Rattle.rp_operations.specs.Seen.{seen};
ghost use Rattle.rp_rule_laws.specs.Operations.{HasAtMost, HasClass, HasCount, HaveClasses, IsClassAmong, IsClassOfBoth};
ghost use Rattle.rp_rule_laws.specs.Operations.{IsDifference, IsInclusionTest, IsIntersection, IsJoin, IsSetUnion, count_in, elements};
ghost use Rattle.rp_value.specs.declared.value.Value.{Value};
ghost use Rattle.rp_value.specs.declared.value.Value.TheVariants as v;

/// A class among values is what is the same as any value of it.
#[tactic(auto, using(crate::proofs::OperationsCounts::one_class))]
pub fn class_is_what_is_the_same()
    ensures members { (values : List Value) (p : Value → Bool) → IsClassAmong values p → (x y : Value) → Contains values x → Contains values y → p x ≡ true → p y ≡ is_same x y }
    ensures class { (values : List Value) (p : Value → Bool) → IsClassAmong values p → (x : Value) → Contains values x → p x ≡ true → HasClass values x }
{}

/// Numbers, texts, binaries, logical values, items of enumerations and instances are the same as exactly what is seen alike:
/// defined types are looked through, and an INTEGER and a REAL are alike where they have one value.
#[tactic(auto, using(crate::proofs::OperationsAlike::same_where_alike))]
pub fn same_where_seen_alike()
    ensures { (x y : Value) → is_element (seen x) ≡ true → (is_same x y ≡ true) ↔ (seen x ≡ seen y) }
{}

/// If each of some values is a number, a text, a binary, a logical value, an item of an enumeration or an instance, then each
/// lies in a class among them: what is the same as it.
#[tactic(auto, using(crate::proofs::OperationsAlike::have_classes))]
pub fn elements_have_classes()
    ensures { (values : List Value) → list_all (λ x. is_element (seen x)) values ≡ true → HaveClasses values }
{}

// ---- lists

/// Two lists that are joined have as many of a class as both together.
#[tactic(auto, using(crate::proofs::OperationsCounts::joined_count))]
pub fn joined_counts()
    ensures { (p : Value → Bool) (xs ys : List Value) → count_by p (xs ++ ys) ≡ count_by p xs + count_by p ys }
{}

/// The union of the elements of a SET with others has as many of a class as the SET; if the SET has none, it has one if the
/// others have any. So if the SET has at most one, the union has one if either side has any.
#[tactic(auto, using(crate::proofs::OperationsCounts::set_unions_counted))]
pub fn set_union_counts()
    ensures general { (p : Value → Bool) (xs ys : List Value) → IsClassAmong (xs ++ ys) p → count_by p (set_union xs ys) ≡ max (count_by p xs) (min 1 (count_by p ys)) }
    ensures once { (p : Value → Bool) (xs ys : List Value) → IsClassAmong (xs ++ ys) p → count_by p xs ≤ 1 → count_by p (set_union xs ys) ≡ min 1 (count_by p xs + count_by p ys) }
{}

/// The common elements of two lists have as many of a class as the list with fewer.
#[tactic(auto, using(crate::proofs::OperationsCounts::common_count))]
pub fn common_counts()
    ensures { (p : Value → Bool) (xs ys : List Value) → IsClassAmong (xs ++ ys) p → count_by p (common xs ys) ≡ min (count_by p xs) (count_by p ys) }
{}

/// What is left of a list less another has as many of a class as the first has more than the second: none if it doesn't have
/// more.
#[tactic(auto, using(crate::proofs::OperationsCounts::less_count))]
pub fn less_counts()
    ensures { (p : Value → Bool) (xs ys : List Value) → IsClassAmong (xs ++ ys) p → count_by p (less xs ys) ≡ count_by p xs - count_by p ys }
{}

/// If a list lies within another, it has at most as many of each class. If all values of both lie in classes and it has at most
/// as many of each, it lies within the other.
#[tactic(auto, using(crate::proofs::OperationsCounts::withins))]
pub fn all_within_counts()
    ensures fewer { (xs ys : List Value) → all_within xs ys ≡ true → HasAtMost xs ys }
    ensures within { (xs ys : List Value) → HaveClasses (xs ++ ys) → HasAtMost xs ys → all_within xs ys ≡ true }
{}

// ---- aggregates

/// `+` of a SET with others gives an aggregate that has as many of a class as the SET; if the SET has none, it has one if the
/// others have any. So if the SET has at most one, the union has one if either side has any. Any other `+` gives an aggregate that
/// has as many of a class as both sides together.
pub fn union_counts()
    ensures set { (p : Value → Bool) (x y : Value) → IsSetUnion x y → IsClassOfBoth x y p → HasCount p (max (count_in p x) (min 1 (count_in p y))) (union x y) }
    ensures once { (p : Value → Bool) (x y : Value) → IsSetUnion x y → IsClassOfBoth x y p → count_in p x ≤ 1 → HasCount p (min 1 (count_in p x + count_in p y)) (union x y) }
    ensures joined { (p : Value → Bool) (x y : Value) → IsJoin x y → HasCount p (count_in p x + count_in p y) (union x y) }
{}

/// `*` gives an aggregate that has as many of a class as the side with fewer.
pub fn intersection_counts()
    ensures { (p : Value → Bool) (x y : Value) → IsIntersection x y → IsClassOfBoth x y p → HasCount p (min (count_in p x) (count_in p y)) (intersection x y) }
{}

/// `-` gives an aggregate that has as many of a class as the left has more than the right: none if it doesn't have more.
pub fn difference_counts()
    ensures { (p : Value → Bool) (x y : Value) → IsDifference x y → IsClassOfBoth x y p → HasCount p (count_in p x - count_in p y) (difference x y) }
{}

/// If all elements of both sides lie in classes among them, `<=` is TRUE exactly if the left has at most as many of each class as
/// the right, and else FALSE.
pub fn is_within_counts()
    ensures is_true { (x y : Value) → IsInclusionTest x y → HaveClasses (elements x ++ elements y) → (is_within x y ≡ v.Log True) ↔ HasAtMost (elements x) (elements y) }
    ensures is_false { (x y : Value) → IsInclusionTest x y → HaveClasses (elements x ++ elements y) → (is_within x y ≡ v.Log False) ↔ (HasAtMost (elements x) (elements y) → ⊥) }
{}

//! Laws of the report of a validation: its entries, and the order of culprits in its lists.

ghost use Rattle.std.specs.Prelude.{◌≡◌, ◌≢◌, ◌<◌, ◌+◌, ℕ, List, All, AllPairs, count_by, length, is_some, false, if◌then◌else◌};
ghost use Rattle.ex_types.specs.Checked.{Checked};
ghost use Rattle.p21_bind.specs.Origins.{IsSpelled};
ghost use Rattle.rp_meaning.specs.Compiled.{compiled};
ghost use Rattle.rp_meaning.specs.Populations.{Instance};
ghost use Rattle.rp_meaning.specs.Reading.{instance_of};
ghost use Rattle.rp_meaning.specs.Report.{report};
ghost use Rattle.rp_meaning.specs.declared.report.Check.{Check};
ghost use Rattle.rp_meaning.specs.declared.report.Constraint.{Constraint};
ghost use Rattle.rp_meaning.specs.declared.schema.Schema.{Schema};
ghost use Rattle.rp_population.specs.Populations.{Placed};
ghost use Rattle.rp_positions.specs.Seen.{all_seen_by};
ghost use Rattle.rp_rule_laws.specs.Reports.{HasOrders, HaveAttributesOnce, InEachList, Precedes};
ghost use Rattle.rp_rule_laws.specs.Reports.{constraints, count_of_rules, declared_rules, is_entry, is_of_values, same_constraint};
ghost use Rattle.rp_value.specs.declared.value.Value.{Value};

/// A report has an entry for each of the three checks of values and for each rule of the schema, one for each, and no other. So it
/// has three entries and as many more as the schema has rules. Which entries these are, and their order, doesn't depend on the population.
pub fn each_rule_has_an_entry()
    ensures each { (schema : Schema) (population : List Instance) (c : Constraint) → HasOrders schema → count_by (same_constraint c) (constraints (report schema population)) ≡ if is_entry schema c then 1 else 0 }
    ensures count { (schema : Schema) (population : List Instance) → HasOrders schema → length (report schema population).checks ≡ 3 + count_of_rules schema }
    ensures same { (schema : Schema) (population others : List Instance) → constraints (report schema population) ≡ constraints (report schema others) }
{}

/// A schema as it is evaluated has its types, entities and rules in orders that name each of them once. It has as many rules as
/// the schema that was checked declares.
pub fn compiled_schemas_have_all_rules()
    ensures orders { (schema : Checked) → HasOrders (compiled schema) }
    ensures count { (schema : Checked) → count_of_rules (compiled schema) ≡ declared_rules schema.named.schema }
{}

/// In each list of culprits the instances ascend, and the attributes of one instance stand as the instance has them. All culprits
/// are in the population. They name attributes where values are checked, and nowhere else; so each list of instances has each of them
/// once. If no instance of the population has an attribute twice, no culprit stands twice in a list.
pub fn culprits_are_in_order()
    ensures order { (schema : Schema) (population : List Instance) → All (InEachList (AllPairs (Precedes population))) (report schema population).checks }
    ensures inside { (schema : Schema) (population : List Instance) → All (InEachList (All (λ x. x.instance < length population))) (report schema population).checks }
    ensures attributes { (schema : Schema) (population : List Instance) → All (λ (check : Check). InEachList (All (λ x. is_some x.attribute ≡ is_of_values check.constraint)) check) (report schema population).checks }
    ensures instances { (schema : Schema) (population : List Instance) → All (λ (check : Check). is_of_values check.constraint ≡ false → InEachList (AllPairs (λ x y. x.instance < y.instance)) check) (report schema population).checks }
    ensures once { (schema : Schema) (population : List Instance) → HaveAttributesOnce population → All (InEachList (AllPairs (λ x y. x ≢ y))) (report schema population).checks }
{}

/// An instance of a population that is made of instances of different entities has each attribute once.
pub fn instances_have_attributes_once()
    ensures { (schema : Schema) (count : ℕ) (entities : List ℕ) (values : List Value) → AllPairs (λ e f. e ≢ f) entities → AllPairs (λ x y. x.attribute ≢ y.attribute) (instance_of schema count entities values).values }
{}

/// If each instance of a population came with a file or a text, as all instances of a valid repository did, each has each attribute
/// once where rules see it, and no culprit stands twice in a list of the report.
pub fn read_instances_have_attributes_once()
    ensures attributes { (checked : Checked) (schema : Schema) (xs : List Placed) → All (λ x. IsSpelled checked x.instance) xs → HaveAttributesOnce (all_seen_by schema checked xs) }
    ensures culprits { (checked : Checked) (schema : Schema) (xs : List Placed) → All (λ x. IsSpelled checked x.instance) xs → All (InEachList (AllPairs (λ x y. x ≢ y))) (report schema (all_seen_by schema checked xs)).checks }
{}

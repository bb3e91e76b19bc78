//! What holds of every evaluation.

ghost use Rattle.std.specs.Prelude.{◌≡◌, ℕ, ◌≤◌, ◌&&◌, List, nat_le, if◌then◌else◌};
ghost use Rattle.rp_meaning.specs.Expressions.{Scope, World, expression};
ghost use Rattle.rp_meaning.specs.Laws.{Steady, Taken, kept};
ghost use Rattle.rp_meaning.specs.Levels.{bodies};
ghost use Rattle.rp_meaning.specs.Outcomes.{evaluation, outcome};
ghost use Rattle.rp_meaning.specs.Populations.{Instance};
ghost use Rattle.rp_meaning.specs.Report.{report};
ghost use Rattle.rp_meaning.specs.declared.body.Body.{Body};
ghost use Rattle.rp_meaning.specs.declared.counter.Counter.{Counter};
ghost use Rattle.rp_meaning.specs.declared.outcome.Outcome.TheVariants as o;
ghost use Rattle.rp_meaning.specs.declared.rule.Rule.{Rule};
ghost use Rattle.rp_meaning.specs.declared.schema.Schema.{Schema};
ghost use Rattle.rp_code.specs.declared.tree.Expression.{Expression};
ghost use Rattle.rp_value.specs.declared.value.Value.{Value};

/// What a body, an expression or a rule takes doesn't depend on what it may take: with other steps left, and where another
/// number of bodies may nest, it gives the same value, takes as many steps and nests as many bodies, or stops at the limit.
pub fn limits_only_cut()
    ensures expressions { (world : World) (levels : ℕ) (e : Expression) (s : Scope) → Steady (λ l. expression world (bodies world l) e s) levels }
    ensures bodies { (world : World) (levels : ℕ) (body : Body) → Steady (λ l. bodies world l body) levels }
    ensures rules { (world : World) (levels : ℕ) (rule : Rule) (itself : Value) → Steady (λ l. evaluation world (bodies world l) rule itself) levels }
{}

/// Where a rule has a value at one limit, it has the same value with the same steps at each limit that these steps don't pass,
/// and at each other one none.
pub fn a_limit_is_of_steps()
    ensures { (world : World) (rule : Rule) (itself x : Value) (limit other steps : ℕ) → outcome world rule itself limit ≡ o.Value x steps
        → outcome world rule itself other ≡ if nat_le steps other then o.Value x steps else o.Limit }
{}

/// An evaluation that comes to a value, wherever that is, takes some number of steps, and some number of bodies nest: its
/// outcome is that value with those steps where the limit has as many steps and 200 bodies are as many, and else the limit.
pub fn outcomes_are_of_steps_and_bodies()
    ensures { (world : World) (rule : Rule) (itself x : Value) (levels limit : ℕ) (old new : Counter) → (t : Taken (λ l. evaluation world (bodies world l) rule itself) levels old new x)
        → outcome world rule itself limit ≡ if nat_le t.steps limit && nat_le t.bodies 200 then o.Value x t.steps else o.Limit }
{}

/// A value that is kept serves at every other place: it costs the steps that it took, and is the limit where these are
/// more than are left, or where more bodies nested than may nest there.
pub fn kept_values_serve()
    ensures { (world : World) (levels others : ℕ) (body : Body) (old new c : Counter) (a : Value) → (t : Taken (λ l. bodies world l body) levels old new a) → bodies world others body c ≡ kept t.steps t.bodies a others c }
{}

/// No evaluation takes more steps than it may, and no validation more than 20,000,000.
pub fn steps_are_bounded()
    ensures evaluations { (world : World) (rule : Rule) (itself x : Value) (limit steps : ℕ) → outcome world rule itself limit ≡ o.Value x steps → steps ≤ limit }
    ensures validations { (schema : Schema) (population : List Instance) → (report schema population).steps ≤ 20000000 }
{}

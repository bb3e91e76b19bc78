//! What was read of an instance, and of a whole file, is read again from what canonical text has for it.

ghost use Rattle.std.specs.Prelude.{◌≡◌, ℕ, Bool, true, false, List, [], Ok, map};
ghost use Rattle.std.specs.List.{list_all, AllByRecursion};
ghost use Rattle.ex_resolve.specs.Proved.{DeclaresOnce, HasIdentifiers, held_types};
ghost use Rattle.ex_resolve.specs.Schemas.{Resolved};
ghost use Rattle.ex_types.specs.Checked.{Checked};
ghost use Rattle.graphs.specs.Graphs.{IsAcyclic};
ghost use Rattle.p21_bind.specs.Files.{bound_file};
ghost use Rattle.p21_mappings.specs.Instances as binding;
ghost use Rattle.p21_laws.specs.Instances.{references_of};
ghost use Rattle.p21_laws.specs.Contents.{AreAmong, IsRead, new_content};
ghost use Rattle.p21_laws.specs.Kept.{IsKept};
ghost use Rattle.p21_laws.specs.Schemas.{IsAccepted};
ghost use Rattle.p21_grammar.specs.File.{file_of};
ghost use Rattle.p21_tree.specs.declared.instance.Instance as tree;
ghost use Rattle.p21_tree.specs.declared.raw.Raw.{Raw};
ghost use Rattle.p21_canonical.specs.Trees.{canonical, content_tree, instance_tree};
ghost use Rattle.rp_content.specs.declared.content.Content.{Content};
ghost use Rattle.rp_content.specs.declared.instance.Instance.{Instance};

use ex_loaded::LoadedSchema;

/// A schema whose names are bound is one that the laws below speak of: its premises are what is proved of each.
pub fn accepted_schema()
    ensures { (s : Resolved) → DeclaresOnce s.schema → IsAcyclic (held_types s.schema.types) → s.supertypes ≡ map (λ e. e.supertypes) s.schema.entities → HasIdentifiers s.schema → IsAccepted s }
{}

/// So is one that was loaded.
fn accepted(schema: &LoadedSchema<'_>)
    ensures { IsAccepted schema.now.named }
{
    accepted_schema();
    schema.checked().resolved().proved();
}

/// And so are all of these.
pub fn accepted_schemas(schemas: &[LoadedSchema<'_>])
    ensures { AllByRecursion (λ (schema : Checked). IsAccepted schema.named) schemas.now }
{
    for schema in schemas {
        accepted(schema);
    }
}

/// An instance that was read of a mapping refers to names that are defined there. Where those names are
/// defined, it is read again of the mapping that canonical text has for it.
#[tactic(auto, using(crate::proofs::Contents::instance_laws))]
pub fn instance_again()
    ensures referred { (schema : Checked) → IsAccepted schema.named → (defined : ℕ → Bool) (stood : Bool) (x : tree.Instance) (i : Instance) → binding.instance schema defined stood x ≡ Ok i → list_all defined (references_of (instance_tree schema i).mapping) ≡ true }
    ensures again { (schema : Checked) → IsAccepted schema.named → (defined : ℕ → Bool) (stood : Bool) (x : tree.Instance) (i : Instance) → binding.instance schema defined stood x ≡ Ok i → (now : ℕ → Bool) → list_all now (references_of (instance_tree schema i).mapping) ≡ true → binding.instance schema now false (instance_tree schema i) ≡ Ok i }
{}

/// The content of a file is the content of the tree that canonical text has for it, with its header and in
/// its order, where the names that were linked still are.
#[tactic(auto, using(crate::proofs::Contents::content_again))]
pub fn content_again()
    ensures { (schema : Checked) → IsAccepted schema.named → (linked now : List ℕ) → AreAmong linked now → (raw : Raw) (c : Content) → bound_file schema linked raw ≡ Ok c → bound_file schema now (content_tree schema c) ≡ Ok c }
{}

/// Where a content was read of some text, its canonical text is read as its tree, and so as this content,
/// where the names that were linked still are. So it is with the content of a model into which no file was
/// put. Contents that have one canonical text are one, whatever was linked, and what is read of canonical
/// text has this text again.
pub fn text_again()
    ensures tree { (schema : Checked) → IsAccepted schema.named → (linked text : List ℕ) (c : Content) → IsRead schema linked text c → file_of (canonical schema c) ≡ Ok (content_tree schema c) }
    ensures again { (schema : Checked) → IsAccepted schema.named → (linked now : List ℕ) → AreAmong linked now → (text : List ℕ) (c : Content) → IsRead schema linked text c → IsRead schema now (canonical schema c) c }
    ensures fresh { (schema : Checked) → IsAccepted schema.named → (linked : List ℕ) → IsRead schema linked (canonical schema new_content) new_content }
    ensures one { (schema : Checked) → IsAccepted schema.named → (linked linked2 text text2 : List ℕ) (c c2 : Content) → IsRead schema linked text c → IsRead schema linked2 text2 c2 → canonical schema c ≡ canonical schema c2 → c ≡ c2 }
    ensures stays { (schema : Checked) → IsAccepted schema.named → (linked text : List ℕ) (c c2 : Content) → IsRead schema linked text c → IsRead schema linked (canonical schema c) c2 → canonical schema c2 ≡ canonical schema c }
{}

/// What a model holds is read of its canonical text, but for its links: the header and the instances may have
/// come with many files, and instances by themselves, where each refers to instances of the model or to names
/// that are linked. Contents that have one canonical text differ in links alone, and what is read of canonical
/// text has this text again.
pub fn kept_again()
    ensures tree { (schema : Checked) → IsAccepted schema.named → (linked : List ℕ) (c : Content) → IsKept schema linked c → file_of (canonical schema c) ≡ Ok (content_tree schema c) }
    ensures again { (schema : Checked) → IsAccepted schema.named → (linked : List ℕ) (c : Content) → IsKept schema linked c → IsRead schema linked (canonical schema c) (record c { links = [] }) }
    ensures one { (schema : Checked) → IsAccepted schema.named → (linked linked2 : List ℕ) (c c2 : Content) → IsKept schema linked c → IsKept schema linked2 c2 → canonical schema c ≡ canonical schema c2 → record c { links = [] } ≡ record c2 { links = [] } }
    ensures stays { (schema : Checked) → IsAccepted schema.named → (linked : List ℕ) (c c2 : Content) → IsKept schema linked c → IsRead schema linked (canonical schema c) c2 → canonical schema c2 ≡ canonical schema c }
{}

//! Canonical text is ASCII.

ghost use Rattle.std.specs.Prelude.{◌≡◌, ℕ, true, List, IsAscii, IsUtf8};
ghost use Rattle.ex_schemas.specs.Schemas.{Checked};
ghost use Rattle.p21_canonical.specs.Trees.{canonical, content_tree};
ghost use Rattle.p21_laws.specs.Contents.{IsRead};
ghost use Rattle.p21_laws.specs.Kept.{IsKept};
ghost use Rattle.p21_laws.specs.Schemas.{IsAccepted};
ghost use Rattle.p21_spelling.specs.Files.{is_file};
ghost use Rattle.rp_content.specs.declared.content.Content.{Content};
ghost use Rattle.rp_content.specs.declared.link.Link.{Link};

use p21_laws::text_again;

/// The canonical text of what a model holds is ASCII, and so UTF-8. So is that of what was read of a text, whichever links
/// are put beside it, and that of any content whose tree is well spelled.
pub fn canonical_is_ascii()
    ensures kept { (schema : Checked) → IsAccepted schema.named → (linked : List ℕ) (c : Content) → IsKept schema linked c → IsAscii (canonical schema c) }
    ensures utf8 { (schema : Checked) → IsAccepted schema.named → (linked : List ℕ) (c : Content) → IsKept schema linked c → IsUtf8 (canonical schema c) }
    ensures read { (schema : Checked) → IsAccepted schema.named → (linked text : List ℕ) (c : Content) (links : List Link) → IsRead schema linked text c → IsAscii (canonical schema (record c { links = links })) }
    ensures spelled { (schema : Checked) (c : Content) → is_file (content_tree schema c) ≡ true → IsAscii (canonical schema c) }
{
    text_again();
}

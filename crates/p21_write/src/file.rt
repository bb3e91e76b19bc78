//! The whole text.

ghost use Rattle.std.specs.Prelude.{◌≡◌, ◌++◌, IfOk, OnOk, map, None};
ghost use Rattle.p21_spelling.specs.Files as spelled;
ghost use Rattle.p21_escapes.specs.Encoding.{encoded};
ghost use Rattle.p21_canonical.specs.Trees as spec;

use ex_layouts::Dictionary;
use p21_canonical::{Output, write_lines, write_string, write_values};
use plain_data::Text;
use rp_content::{Content, Header, Instance};
use rp_value::Value;
use std::alloc::{AllocError, Global};

/// A word, `;` and a line feed.
fn write_word(out: &mut Output, word: &str) -> Result<(), AllocError>
    ensures { OnOk result (out.new ≡ out.old ++ spelled.line word.now) }
{
    out.push_str(word)?;
    out.push_str(";\n")
}

/// `WORD(values);` and a line feed.
fn write_entity(out: &mut Output, word: &str, values: &[Value]) -> Result<(), AllocError>
    ensures { OnOk result (out.new ≡ out.old ++ spelled.line (spelled.entity_text word.now (map spec.header_value_tree values.now))) }
{
    out.push_str(word)?;
    write_values(out, values)?;
    out.push_str(";\n")
}

/// `FILE_SCHEMA(('SCHEMA'));` and a line feed.
fn write_schema(out: &mut Output, name: &str) -> Result<(), AllocError>
    ensures { OnOk result (out.new ≡ out.old ++ spelled.line (spelled.schema_text (encoded name.now))) }
{
    out.push_str("FILE_SCHEMA((")?;
    write_string(out, name)?;
    out.push_str("));\n")
}

/// The section of the header.
fn write_header(out: &mut Output, header: &Header, schema: &str) -> Result<(), AllocError>
    ensures { OnOk result (out.new ≡ out.old ++ spelled.header_text (spec.header_tree header.now) (encoded schema.now)) }
{
    write_word(out, "HEADER")?;
    write_entity(out, "FILE_DESCRIPTION", header.description.as_slice())?;
    write_entity(out, "FILE_NAME", header.name.as_slice())?;
    write_schema(out, schema)?;
    write_word(out, "ENDSEC")
}

/// The section of the data.
fn write_data<'s>(
    alloc: Global,
    out: &mut Output,
    schema: &'s Dictionary<'s>,
    instances: &[Instance],
) -> Result<(), AllocError>
    ensures { OnOk result (out.new ≡ out.old ++ spelled.data_text None (map (spec.instance_tree schema.now) instances.now)) }
{
    write_word(out, "DATA")?;
    write_lines(alloc, out, schema, instances)?;
    write_word(out, "ENDSEC")
}

/// The canonical text of what a model of this schema holds.
///
/// Its time is that of the text, and of the entities of each instance.
#[tactic(auto, unfolding(p21_canonical::specs::Trees::canonical))]
pub fn write<'s>(
    alloc: Global,
    schema: &'s Dictionary<'s>,
    content: &Content,
) -> Result<Text, AllocError>
    ensures { IfOk result (λ text. text ≡ spec.canonical schema.now content.now) }
{
    let mut out = Output::new(alloc);
    write_word(&mut out, "ISO-10303-21")?;
    write_header(&mut out, &content.header, schema.name())?;
    write_data(alloc, &mut out, schema, content.instances.as_slice())?;
    write_word(&mut out, "END-ISO-10303-21")?;
    Ok(out.into_text())
}

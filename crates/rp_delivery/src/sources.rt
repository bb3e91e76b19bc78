//! The schemas of a delivery, with their texts.
ghost use Rattle.std.specs.Prelude.{◌≡◌, map, IfSome};
ghost use Rattle.plain_data.specs.Gives.{Gives};
ghost use Rattle.rp_config.specs.Loading.{schema_at, schemas_at};

use ex_compiled::Compiled;
use plain_data::{Failure, Rows};
use rp_config::schema_of;
use rp_files::{Folder, LoadFault, file_bytes};
use std::alloc::Global;

/// Schemas with their texts, in the order of their files.
#[derive(Drop)]
pub struct SchemaSources {
    pub texts: Vec<Vec<u8>>,
    pub schemas: Rows<Compiled>,
}

/// A schema with its text.
#[derive(Drop)]
struct Source {
    text: Vec<u8>,
    schema: Compiled,
}

/// The schema in the file of this path.
fn source_at<D: Folder>(alloc: Global, folder: &D, path: &str) -> Result<Source, Failure<LoadFault>>
    ensures { IfSome (D.files folder.now) (λ held. Gives (λ source. source.schema) result (schema_at held path.now)) }
{
    let text = file_bytes(alloc, folder, path)?;
    let schema = schema_of(alloc, path, &text)?;
    Ok(Source { text, schema })
}

/// The schemas in the files of these paths; else the first fault.
pub fn sources_at<D: Folder>(
    alloc: Global,
    folder: &D,
    paths: &[&str],
) -> Result<SchemaSources, Failure<LoadFault>>
    ensures { IfSome (D.files folder.now) (λ held. Gives (λ sources. sources.schemas) result (schemas_at held (map (λ path. path.now) paths.now))) }
{
    let mut texts = Vec::new(alloc);
    let mut schemas = Rows::new(alloc);
    for path in paths {
        let Source { text, schema } = source_at(alloc, folder, path)?;
        schemas.push(schema)?;
        texts.push(text)?;
    }
    Ok(SchemaSources { texts, schemas })
}

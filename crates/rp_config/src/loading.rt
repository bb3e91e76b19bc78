//! The configuration, and the schemas that it names.
ghost use Rattle.std.specs.Prelude.{◌≡◌, length, IfOk, IfSome};
ghost use Rattle.plain_data.specs.Gives.{Gives};
ghost use Rattle.ex_check.specs.Check as check;
ghost use Rattle.rp_config.specs.Loading as spec;

use crate::config::{Config, ConfigFault, config_of};
use ex_check::{SchemaFault, compile_schema, words_of_fault};
use ex_compiled::Compiled;
use plain_data::{Failure, Rows, Text};
use rp_files::{Folder, LoadFault, file_bytes};
use std::alloc::{AllocError, Global};

/// What a configuration names.
#[derive(Drop)]
pub struct Loaded {
    /// The names of the partners, in their order.
    pub partners: Rows<Text>,
    /// Their tokens, in the same order.
    pub tokens: Rows<Text>,
    /// The schemas, in the order of their files.
    pub schemas: Rows<Compiled>,
}

/// All that the configuration in the file of this path names. Else the first fault: of the
/// configuration, or else of the first of the schemas' files that has one.
pub fn load_all<D: Folder>(
    alloc: Global,
    folder: &D,
    path: &str,
) -> Result<Loaded, Failure<LoadFault>>
    ensures loaded { IfSome (D.files folder.now) (λ held. Gives (λ loaded. loaded) result (spec.loaded_at held path.now)) }
    ensures tokens { IfOk result (λ loaded. length loaded.tokens ≡ length loaded.partners) }
{
    let Config {
        partners,
        tokens,
        schemas,
    } = config_at(alloc, folder, path)?;
    let schemas = schemas_at(alloc, folder, schemas.as_slice())?;
    Ok(Loaded {
        partners,
        tokens,
        schemas,
    })
}

/// The configuration in the file of this path.
pub fn config_at<D: Folder>(
    alloc: Global,
    folder: &D,
    path: &str,
) -> Result<Config, Failure<LoadFault>>
    ensures tokens { IfOk result (λ config. length config.tokens ≡ length config.partners) }
    ensures config { IfSome (D.files folder.now) (λ held. Gives (λ config. config) result (spec.config_at held path.now)) }
{
    let bytes = file_bytes(alloc, folder, path)?;
    match config_of(alloc, &bytes) {
        Ok(config) => Ok(config),
        Err(ConfigFault::Wrong) => {
            let path = Text::from_str(alloc, path)?;
            Err(Failure::Fault(LoadFault::Config(path)))
        }
        Err(ConfigFault::NoMemory) => Err(Failure::NoMemory),
    }
}

/// The schemas in the files of these paths.
fn schemas_at<D: Folder>(
    alloc: Global,
    folder: &D,
    paths: &[Text],
) -> Result<Rows<Compiled>, Failure<LoadFault>>
    ensures { IfSome (D.files folder.now) (λ held. Gives (λ schemas. schemas) result (spec.schemas_at held paths.now)) }
{
    let mut schemas = Rows::new(alloc);
    for path in paths {
        schemas.push(schema_at(alloc, folder, path.as_str())?)?;
    }
    Ok(schemas)
}

/// The schema in the file of this path.
pub(crate) fn schema_at<D: Folder>(
    alloc: Global,
    folder: &D,
    path: &str,
) -> Result<Compiled, Failure<LoadFault>>
    ensures { IfSome (D.files folder.now) (λ held. Gives (λ schema. schema) result (spec.schema_at held path.now)) }
{
    let text = file_bytes(alloc, folder, path)?;
    schema_of(alloc, path, &text)
}

/// The schema of a text, which the file of this path has.
pub fn schema_of(alloc: Global, path: &str, text: &[u8]) -> Result<Compiled, Failure<LoadFault>>
    ensures { Gives (λ schema. schema) result (spec.schema_in path.now text.now (check.schema text.now)) }
{
    match compile_schema(alloc, text) {
        Ok(schema) => Ok(schema),
        Err(Failure::Fault(fault)) => Err(Failure::Fault(no_schema(alloc, path, text, fault)?)),
        Err(Failure::NoMemory) => Err(Failure::NoMemory),
    }
}

/// What is told of the first fault of a text, which the file of this path has.
fn no_schema(
    alloc: Global,
    path: &str,
    text: &[u8],
    fault: SchemaFault,
) -> Result<LoadFault, AllocError>
    ensures { IfOk result (λ told. told ≡ LoadFault.Schema path.now (check.words_of_fault text.now fault)) }
{
    let words = words_of_fault(alloc, text, fault)?;
    let path = Text::from_str(alloc, path)?;
    Ok(LoadFault::Schema(path, Text::new(words)))
}

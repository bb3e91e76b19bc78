//! Models.

ghost use Rattle.std.specs.Prelude.{◌≡◌, nat_le, IfOk};
ghost use Rattle.std.specs.List.{list_all};
ghost use Rattle.rp_rows.specs.Rows.{Model};
ghost use Rattle.rp_plain.specs.Valid.{IsValidModel};
ghost use Rattle.rp_snapshot_rows.specs.Again.{saved_model};
ghost use Rattle.rp_snapshots.specs.Snapshots.{first_version, file_in};
ghost use Rattle.rp_restored_rows.specs.Models as of_models;
ghost use Rattle.rp_restored_rows.specs.Models.{model_of, joins, Takes, Restores};

use crate::files::read;
use crate::lack::RowLack;
use crate::links::{are_free, links_lack};
use crate::partners::PartnerOrder;
use crate::rows::row_lack;
use ex_loaded::LoadedSchema;
use p21_laws::accepted_schemas;
use plain_data::{Failure, Rows, Text};
use rp_content::{Content, Instance};
use rp_rows::limits::{MAX_INSTANCES, MAX_NAME};
use rp_rows::rows::{Grant, Key, ModelContent};
use rp_snapshot_rows::SavedModel;
use rp_snapshots::schema_named;
use std::alloc::Global;

/// A model with its file bound: its key, what it holds, and who else may do what with it.
#[derive(Drop)]
pub struct RestoredModel {
    pub key: Key,
    pub holds: ModelContent,
    pub grants: Rows<Grant>,
}

/// What the model lacks, whatever its file has.
fn head_lack(partners: &[Text], order: &PartnerOrder, saved: &SavedModel) -> Option<RowLack>
    ensures { result ≡ of_models.head_lack partners.now saved.now }
{
    if let Some(lack) = row_lack(partners, order, &saved.key, saved.grants.as_slice()) {
        return Some(lack);
    }
    if saved.greatest > MAX_NAME {
        return Some(RowLack::GreatestTooLong);
    }
    links_lack(
        partners,
        order,
        &saved.key,
        saved.greatest,
        saved.links.as_slice(),
    )
}

fn are_within(greatest: u64, instances: &[Instance]) -> bool
    ensures { result ≡ list_all (λ i. nat_le i.name greatest) instances.now }
{
    instances.iter().all(|instance| instance.name <= greatest)
}

/// What the model lacks beside what its file has.
fn content_lack(saved: &SavedModel, content: &Content) -> Option<RowLack>
    ensures { result ≡ of_models.content_lack saved.now content.now }
{
    let instances = &content.instances;
    if instances.len() > MAX_INSTANCES {
        return Some(RowLack::TooManyInstances);
    }
    if !are_within(saved.greatest, instances.as_slice()) {
        return Some(RowLack::InstanceAboveGreatest);
    }
    if !are_free(instances, saved.links.as_slice()) {
        return Some(RowLack::LinkDefined);
    }
    None
}

/// What the file of the model has, if the model lacks nothing.
fn content_of<'s>(
    alloc: Global,
    schemas: &'s [LoadedSchema<'s>],
    partners: &[Text],
    order: &PartnerOrder,
    saved: &SavedModel,
    file: &[u8],
) -> Result<Content, Failure<RowLack>>
    ensures { Takes schemas.now partners.now saved.now file.now result }
{
    if let Some(lack) = head_lack(partners, order, saved) {
        return Err(Failure::Fault(lack));
    }
    let Some(schema) = schema_named(schemas, &saved.schema) else {
        return Err(Failure::Fault(RowLack::UnknownSchema));
    };
    let content = read(alloc, schema, &saved.schema, saved.links.as_slice(), file)?;
    match content_lack(saved, &content) {
        None => Ok(content),
        Some(lack) => {
            // (A call, since content that goes out of scope is opened here down to its texts.)
            drop(content);
            Err(Failure::Fault(lack))
        }
    }
}

/// The model with what its file has, and its links beside it.
fn joined(saved: SavedModel, content: Content) -> RestoredModel
    ensures { model_of result ≡ joins saved content }
{
    let SavedModel {
        key,
        schema,
        greatest,
        grants,
        links,
    } = saved;
    let Content {
        header,
        instances,
        links: none,
    } = content;
    drop(none);
    RestoredModel {
        key,
        holds: ModelContent {
            schema,
            greatest,
            content: Content {
                header,
                instances,
                links,
            },
        },
        grants,
    }
}

/// A model that was read, with its file, if a repository of these schemas and partners may have it.
///
/// # Errors
///
/// What it lacks, or want of memory.
pub fn restored_model<'s>(
    alloc: Global,
    schemas: &'s [LoadedSchema<'s>],
    partners: &[Text],
    order: &PartnerOrder,
    saved: SavedModel,
    file: &str,
) -> Result<RestoredModel, Failure<RowLack>>
    ensures valid { IfOk result (λ restored. IsValidModel schemas.now partners.now (model_of restored)) }
    ensures again { (m : Model) → IsValidModel schemas.now partners.now m → saved ≡ saved_model m → file.now ≡ file_in first_version schemas.now m.holds → Restores result m }
{
    accepted_schemas(schemas);
    match content_of(alloc, schemas, partners, order, &saved, file.as_bytes()) {
        Ok(content) => Ok(joined(saved, content)),
        Err(failure) => Err(failure),
    }
}

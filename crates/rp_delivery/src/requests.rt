//! The requests of a delivery, as the partner who delivers makes them.
ghost use Rattle.std.specs.Prelude.{◌≡◌, [], ◌∷◌, IfOk};
ghost use Rattle.rp_delivery.specs.Requests as spec;
ghost use Rattle.rp_delivery.specs.Requests.{IsMe, IsAnswered, IsAnswer, Makes};

use crate::named::{group, group_key, model, model_key};
use plain_data::{Rows, Text};
use rp_repo::{Caller, Reply, Repository, Request};
use std::alloc::{AllocError, Global};

pub(crate) fn is_refused(reply: &Reply) -> bool
    ensures { result ≡ spec.is_refused reply.now }
{
    matches!(reply, Reply::Refused(_))
}

/// The reply to a request.
fn ask(alloc: Global, repository: &mut Repository<'_>, me: Caller, request: Request) -> Reply
    requires { IsMe repository.old.content me }
    ensures same { IsMe repository.new.content me }
    ensures answered { IsAnswered repository.old.content repository.new.content (spec.mine request) result }
{
    repository.handle(alloc, me, request)
}

/// The replies to the creation of the model of this number and to the put of a file into it: that of the put, or the first
/// refusal.
pub(crate) fn put(
    alloc: Global,
    repository: &mut Repository<'_>,
    me: Caller,
    schema: &str,
    number: usize,
    file: Text,
) -> Result<Reply, AllocError>
    requires { IsMe repository.old.content me }
    ensures same { IsMe repository.new.content me }
    ensures makes { IfOk result (Makes repository.old.content repository.new.content (spec.create schema.now number ∷ spec.put number file ∷ [])) }
{
    let name = model(alloc, number)?;
    let schema = Text::from_str(alloc, schema)?;
    let model = model_key(alloc, number)?;
    let links = Rows::new(alloc);
    let created = ask(alloc, repository, me, Request::CreateModel { name, schema });
    if is_refused(&created) {
        return Ok(created);
    }
    drop(created);
    Ok(ask(alloc, repository, me, Request::Put { model, file, links }))
}

/// The reply to the validation of the group that lists so many models then, or the first refusal before it.
fn validate_listed(
    alloc: Global,
    repository: &mut Repository<'_>,
    me: Caller,
    count: usize,
) -> Result<Reply, AllocError>
    requires { IsMe repository.old.content me }
    ensures { IfOk result (IsAnswer repository.old.content (spec.listing count)) }
{
    for place in 0..count {
        let model = model_key(alloc, place + 1)?;
        let group = group(alloc)?;
        let included = ask(alloc, repository, me, Request::Include { group, model });
        if is_refused(&included) {
            return Ok(included);
        }
        drop(included);
    }
    let group = group_key(alloc)?;
    Ok(ask(alloc, repository, me, Request::Validate { group }))
}

/// The reply to the validation of a group of so many models, or the first refusal before it.
pub(crate) fn validate(
    alloc: Global,
    repository: &mut Repository<'_>,
    me: Caller,
    schema: &str,
    count: usize,
) -> Result<Reply, AllocError>
    requires { IsMe repository.old.content me }
    ensures { IfOk result (IsAnswer repository.old.content (spec.validation schema.now count)) }
{
    let name = group(alloc)?;
    let schema = Text::from_str(alloc, schema)?;
    let created = ask(alloc, repository, me, Request::CreateGroup { name, schema });
    if is_refused(&created) {
        return Ok(created);
    }
    drop(created);
    validate_listed(alloc, repository, me, count)
}

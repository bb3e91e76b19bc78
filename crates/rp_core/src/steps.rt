//! What a prepared request is still to do. No step takes memory.

ghost use Rattle.std.specs.Prelude.{◌≡◌, ◌≢◌, [], Some, None, length, map, nat_lt, MatchResult, IfOk};
ghost use Rattle.rp_plain.specs.Meaning.{first_some};
ghost use Rattle.rp_access.specs.Steps.{PreparedFits};
ghost use Rattle.rp_plans.specs.Plans.{AreApart};
ghost use Rattle.rp_core.specs.Held.{After, StepFits, StepsFit, IsRightsOf, IsModelStep, IsStepOf, AreStepsOf, made_entries, made_rights, made_groups};
ghost use Rattle.rp_core.specs.Faults.{store_refusal, access_refusal, with_rights, rights_fault, edit_fault};

use plain_data::Rows;
use rp_access::{Access, AccessFault};
use rp_plain::messages::{Refusal, Reply};
use rp_plans::{Edit, Plan};
use rp_store::{Store, StoreFault};
use std::alloc::{AllocError, Global};

/// One edit with all the memory that it takes: what is done to the store, if anything is, and to the rights.
#[derive(Drop)]
pub struct Step {
    store: Option<rp_store::Prepared>,
    rights: rp_access::Prepared,
}

/// A request's reply, and what is still to be done. Dropped, it changes nothing.
#[derive(Drop)]
pub struct Pending {
    pub(crate) reply: Reply,
    pub(crate) steps: Rows<Step>,
}

/// The refusal that a reason of the store is.
fn of_store(fault: StoreFault) -> Refusal
    ensures { result ≡ store_refusal fault }
{
    match fault {
        StoreFault::Exists => Refusal::Exists,
        StoreFault::Absent => Refusal::NoSuchItem,
        StoreFault::TooMany => Refusal::TooMany,
        StoreFault::NoSuchInstance => Refusal::NoSuchInstance,
        StoreFault::InUse => Refusal::InUse,
        StoreFault::NoMemory => Refusal::NoMemory,
    }
}

/// The refusal that a reason of the rights is.
fn of_access(fault: AccessFault) -> Refusal
    ensures { result ≡ access_refusal fault }
{
    match fault {
        AccessFault::Exists => Refusal::Exists,
        AccessFault::Absent => Refusal::NoSuchItem,
        AccessFault::Membership => Refusal::Membership,
        AccessFault::TooMany => Refusal::TooMany,
        AccessFault::NoMemory => Refusal::NoMemory,
    }
}

/// What happens to rights where what models hold changes so: those on a new model are opened, those on one that goes closed.
fn rights_with(
    alloc: Global,
    change: &rp_store::Change,
) -> Result<Option<rp_access::Change>, AllocError>
    ensures { IfOk result (λ rights. rights ≡ with_rights change.now) }
{
    match change {
        rp_store::Change::Create(key, _) => {
            let key = key.copy(alloc)?;
            Ok(Some(rp_access::Change::CreateModel(key)))
        }
        rp_store::Change::Remove(key) => {
            let key = key.copy(alloc)?;
            Ok(Some(rp_access::Change::RemoveModel(key)))
        }
        _ => Ok(None),
    }
}

/// What happens to rights where what models hold changes so, with room for it, or what the rights say against it. Nothing that
/// is held changes.
fn rights_step(
    alloc: Global,
    access: &mut Access,
    change: &rp_store::Change,
) -> Result<rp_access::Prepared, Refusal>
    ensures rights { access.new.models.entries ≡ access.old.models.entries }
    ensures groups { access.new.groups.rows ≡ access.old.groups.rows }
    ensures made { MatchResult result (IsRightsOf (with_rights change.now) access.old.models.entries access.old.groups.rows) (λ refusal. refusal ≢ Refusal.NoMemory → rights_fault access.old.models.entries access.old.groups.rows (with_rights change.now) ≡ Some refusal) }
    ensures fits { IfOk result (PreparedFits access.new) }
{
    let Some(rights) = rights_with(alloc, change)? else {
        return Ok(rp_access::Prepared::Nothing);
    };
    match access.prepare(alloc, rights) {
        Ok(prepared) => Ok(prepared),
        Err(fault) => Err(of_access(fault)),
    }
}

/// The refusal that a reason of the store is. What was prepared of rights is let go.
fn without(_rights: rp_access::Prepared, fault: StoreFault) -> Refusal
    ensures { result ≡ store_refusal fault }
{
    of_store(fault)
}

/// The step that a change of what models hold comes to, as [`step_of`] has it.
fn model_step(
    alloc: Global,
    store: &mut Store,
    access: &mut Access,
    change: rp_store::Change,
) -> Result<Step, Refusal>
    ensures models { store.new.entries ≡ store.old.entries }
    ensures rights { access.new.models.entries ≡ access.old.models.entries }
    ensures groups { access.new.groups.rows ≡ access.old.groups.rows }
    ensures made { MatchResult result (IsModelStep change store.old.entries access.old.models.entries access.old.groups.rows) (λ refusal. refusal ≢ Refusal.NoMemory → edit_fault store.old.entries access.old.models.entries access.old.groups.rows (Edit.OfModel change) ≡ Some refusal) }
    ensures fits { IfOk result (StepFits (record { models = store.new; access = access.new })) }
{
    let rights = rights_step(alloc, access, &change)?;
    match store.prepare(alloc, change) {
        Ok(prepared) => Ok(Step {
            store: Some(prepared),
            rights,
        }),
        Err(fault) => Err(without(rights, fault)),
    }
}

/// The step that an edit comes to, with room for it, or what the store or the rights say against it. Nothing that is held changes.
fn step_of(
    alloc: Global,
    store: &mut Store,
    access: &mut Access,
    edit: Edit,
) -> Result<Step, Refusal>
    ensures models { store.new.entries ≡ store.old.entries }
    ensures rights { access.new.models.entries ≡ access.old.models.entries }
    ensures groups { access.new.groups.rows ≡ access.old.groups.rows }
    ensures made { MatchResult result (IsStepOf store.old.entries access.old.models.entries access.old.groups.rows edit) (λ refusal. refusal ≢ Refusal.NoMemory → edit_fault store.old.entries access.old.models.entries access.old.groups.rows edit ≡ Some refusal) }
    ensures fits { IfOk result (StepFits (record { models = store.new; access = access.new })) }
{
    match edit {
        Edit::OfModel(change) => model_step(alloc, store, access, change),
        Edit::OfRights(change) => match access.prepare(alloc, change) {
            Ok(rights) => Ok(Step {
                store: None,
                rights,
            }),
            Err(fault) => Err(of_access(fault)),
        },
    }
}

/// The steps that edits come to, with room for all of them, or the first that is said against one. Nothing that is held changes.
fn steps_of(
    alloc: Global,
    store: &mut Store,
    access: &mut Access,
    edits: Rows<Edit>,
) -> Result<Rows<Step>, Refusal>
    requires { AreApart edits }
    ensures models { store.new.entries ≡ store.old.entries }
    ensures rights { access.new.models.entries ≡ access.old.models.entries }
    ensures groups { access.new.groups.rows ≡ access.old.groups.rows }
    ensures made { MatchResult result (AreStepsOf store.old.entries access.old.models.entries access.old.groups.rows edits) (λ refusal. refusal ≢ Refusal.NoMemory → first_some (map (edit_fault store.old.entries access.old.models.entries access.old.groups.rows) edits) ≡ Some refusal) }
    ensures fits { IfOk result (StepsFit (record { models = store.new; access = access.new })) }
{
    let mut steps = Vec::with_capacity(alloc, edits.len())?;
    for edit in edits.into_vec() {
        match step_of(alloc, store, access, edit) {
            Ok(step) => steps.push(step)?,
            Err(refusal) => return Err(refusal),
        }
    }
    Ok(Rows::from_vec(steps))
}

/// Makes a step. It takes no memory.
fn make_step(store: &mut Store, access: &mut Access, step: Step)
    requires { StepFits (record { models = store.old; access = access.old }) step }
    ensures { After step (record { models = store.old; access = access.old }) (record { models = store.new; access = access.new }) }
{
    let Step {
        store: prepared,
        rights,
    } = step;
    if let Some(prepared) = prepared {
        store.commit(prepared);
    }
    access.commit(rights);
}

/// Makes the steps. It takes no memory.
pub fn make_steps(store: &mut Store, access: &mut Access, steps: Rows<Step>)
    requires { StepsFit (record { models = store.old; access = access.old }) steps }
    ensures models { store.new.entries ≡ made_entries steps store.old.entries }
    ensures rights { access.new.models.entries ≡ made_rights steps access.old.models.entries }
    ensures groups { access.new.groups.rows ≡ made_groups steps access.old.groups.rows }
{
    for step in steps.into_vec() {
        make_step(store, access, step);
    }
}

impl Pending {
    /// A refusal, with nothing to be done.
    pub(crate) fn refused(alloc: Global, refusal: Refusal) -> Pending
        ensures { result ≡ record { reply = Reply.Refused refusal; steps = [] } }
    {
        Pending {
            reply: Reply::Refused(refusal),
            steps: Rows::new(alloc),
        }
    }

    /// What is pending of a plan, with room for it, or what is said against its edits.
    pub(crate) fn of_plan(
        alloc: Global,
        store: &mut Store,
        access: &mut Access,
        plan: Plan,
    ) -> Result<Pending, Refusal>
        requires { AreApart plan.edits }
        ensures models { store.new.entries ≡ store.old.entries }
        ensures rights { access.new.models.entries ≡ access.old.models.entries }
        ensures groups { access.new.groups.rows ≡ access.old.groups.rows }
        ensures reply { IfOk result (λ pending. pending.reply ≡ plan.reply) }
        ensures made { MatchResult result (λ pending. AreStepsOf store.old.entries access.old.models.entries access.old.groups.rows plan.edits pending.steps) (λ refusal. refusal ≢ Refusal.NoMemory → first_some (map (edit_fault store.old.entries access.old.models.entries access.old.groups.rows) plan.edits) ≡ Some refusal) }
        ensures fits { IfOk result (λ pending. StepsFit (record { models = store.new; access = access.new }) pending.steps) }
    {
        let Plan { reply, edits } = plan;
        let steps = steps_of(alloc, store, access, edits)?;
        Ok(Pending { reply, steps })
    }

    /// What the request is answered, once the steps are made.
    pub fn reply(&self) -> &Reply
        ensures { result.now ≡ self.now.reply }
    {
        &self.reply
    }

    /// Whether something is still to be done.
    pub fn has_steps(&self) -> bool
        ensures { result ≡ nat_lt 0 (length self.now.steps) }
    {
        0 < self.steps.len()
    }
}

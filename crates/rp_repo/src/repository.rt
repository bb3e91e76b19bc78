//! The repository, whose requests are turns of its partners.

use ex_loaded::LoadedSchema;
use plain_data::Text;
use rp_core::{Holdings, Pending};
use rp_io::Sink;
use rp_laws::{model_text_again, one_run, step_keeps_validity};
use rp_plain::messages::{NewFault, Reply, Request};
use rp_restore::RestoreFault;
use rp_snapshots::SaveFault;
use std::alloc::{AllocError, Global};
use std::marker::Model;

/// A partner, by his place in the partner table.
#[derive(Clone, Copy)]
pub struct Caller {
    place: usize,
}

impl Model for Caller {
    ghost use Rattle.std.specs.Prelude.{ℕ};

    ghost Value = { ℕ };

    ghost view = { λ c. c.place };

    ghost inverse = { λ n. record { place = n } };
}

/// A request with the partner who makes it.
#[derive(Drop)]
pub struct Call {
    pub caller: Caller,
    pub request: Request,
}

/// Schemas, partners, models and groups. What is held is valid at all times. The schemas are lent.
#[derive(Drop)]
pub struct Repository<'s> {
    holdings: Holdings<'s>,
    /// How many requests changed something, from its making on.
    changes: u64,
}

/// How many requests changed something, with this one.
fn counted(changes: u64, pending: &Pending) -> u64 {
    if pending.has_steps() {
        changes.wrapping_add(1)
    } else {
        changes
    }
}

impl<'s> Model for Repository<'s> {
    ghost use Rattle.rp_laws.specs.Laws.{TextAgain};
    ghost use Rattle.rp_plain.specs.Valid.{IsValid};
    ghost use Rattle.rp_core.specs.Held.{Kept};

    ghost Value = { Kept };

    ghost use Rattle.std.specs.Coded.{codes};
    ghost use Rattle.ex_types.specs.contracts.schema.CheckedSchema as schema_type;
    ghost use Rattle.rp_rows.specs.contracts.rows.ModelContent as content_type;

    ghost coded = { Prim.hlevel (codes, schema_type.the_row.coded, content_type.the_row.coded) };

    ghost view = { λ r. r.holdings };

    ghost invariant = { λ r. IsValid r.holdings.content × TextAgain r.holdings.content.schemas };
}

impl<'s> Repository<'s> {
    ghost use Rattle.std.specs.Prelude.{◌≡◌, ◌≢◌, ◌<◌, ℕ, List, false, length, Some, None, IfOk, IfErr, OnErr, MatchOption};
    ghost use Rattle.std.specs.List.{AllByRecursion};
    ghost use Rattle.rp_laws.specs.Laws.{IsReadAgainWhole};
    ghost use Rattle.rp_plain.specs.Plain.{Plain, part};
    ghost use Rattle.rp_plain.specs.Meaning.{has_text};
    ghost use Rattle.rp_plain.specs.Opening.{new_fault, opened};
    ghost use Rattle.rp_plain.specs.Runs.{MayReply};
    ghost use Rattle.rp_plain.specs.Turns.{effect, after, Run, OthersOutside, replies_to, requests_of, alone, alone_end};
    ghost use Rattle.rp_plain.specs.Valid.{IsValid};
    ghost use Rattle.rp_core.specs.Held.{partner_at, turn, made, IsPrepared};
    ghost use Rattle.rp_restore.specs.Again.{ComesBack};
    ghost use Rattle.rp_restore.specs.Faults.{OpensFirst};
    ghost use Rattle.rp_snapshot_texts.specs.Saving.{Saves};
    ghost use Rattle.rp_snapshots.specs.Snapshots.{snapshot_of};
    ghost use Rattle.rp_repo.specs.Calls.{turns_of};
    ghost use Rattle.rp_repo.specs.Ready.{IsReady};

    /// The empty repository of these schemas and partners.
    ///
    /// # Errors
    ///
    /// The first that holds of `TwoSchemas`, `TwoPartners`, `BadName` and `TooMany`; or `NoMemory`.
    pub fn new(
        alloc: Global,
        schemas: &'s [LoadedSchema<'s>],
        partners: Vec<Text>,
    ) -> Result<Repository<'s>, NewFault>
        ensures ok { IfOk result (λ _. new_fault schemas.now partners.items ≡ None) }
        ensures content { IfOk result (λ repository. repository.content ≡ opened schemas.now partners.items) }
        ensures valid { IfOk result (λ repository. IsValid repository.content) }
        ensures err { IfErr result (λ fault. fault ≢ NewFault.NoMemory → new_fault schemas.now partners.items ≡ Some fault) }
    {
        step_keeps_validity();
        model_text_again(schemas);
        let holdings = Holdings::new(alloc, schemas, partners)?;
        Ok(Repository {
            holdings,
            changes: 0,
        })
    }

    /// The repository of these schemas and partners of which the bytes are the snapshot.
    ///
    /// # Errors
    ///
    /// What [`new`](Repository::new) refuses. Then what the bytes lack, where they are the snapshot of no valid repository of these
    /// schemas and partners; or `NoMemory`.
    pub fn restore(
        alloc: Global,
        schemas: &'s [LoadedSchema<'s>],
        partners: Vec<Text>,
        bytes: &[u8],
    ) -> Result<Repository<'s>, RestoreFault>
        ensures new { OpensFirst result (new_fault schemas.now partners.items) }
        ensures valid { IfOk result (λ repository. IsValid repository.content) }
        ensures same { IfOk result (λ repository. bytes.now ≡ snapshot_of repository.content) }
        ensures schemas { IfOk result (λ repository. repository.content.schemas ≡ schemas.now) }
        ensures partners { IfOk result (λ repository. repository.content.partners ≡ partners.items) }
        // From the snapshot of a valid repository of these schemas and partners it comes back, unless memory is wanting.
        ensures again { (r : Plain) → IsValid r → r.schemas ≡ schemas.now → r.partners ≡ partners.items → bytes.now ≡ snapshot_of r → ComesBack result r }
    {
        model_text_again(schemas);
        match rp_restore::restore(alloc, schemas, partners, bytes) {
            Ok(holdings) => Ok(Repository {
                holdings,
                changes: 0,
            }),
            Err(fault) => Err(fault),
        }
    }

    /// The snapshot of all that is held, from which it comes back.
    ///
    /// # Errors
    ///
    /// Want of memory.
    pub fn snapshot(&self, alloc: Global) -> Result<Vec<u8>, AllocError>
        ensures { IfOk result (λ bytes. bytes.items ≡ snapshot_of self.now.content) }
    {
        let (groups, models) = (self.holdings.groups(), self.holdings.models());
        rp_snapshots::snapshot(alloc, self.holdings.schemas(), &groups, &models)
    }

    /// Writes the snapshot, a row at a time: all of it, or a front of it.
    ///
    /// # Errors
    ///
    /// A write failed, or there is no memory for the text of a row.
    pub fn save<W: Sink>(&self, alloc: Global, writer: &mut W) -> Result<(), SaveFault>
        ensures { Saves result (W.contents writer.old) (W.contents writer.new) (W.write_failures writer.old) (W.write_failures writer.new) (snapshot_of self.now.content) }
    {
        let (groups, models) = (self.holdings.groups(), self.holdings.models());
        rp_snapshots::save(alloc, self.holdings.schemas(), &groups, &models, writer)
    }

    /// A number that is another once a request changed something.
    pub fn changes(&self) -> u64 {
        self.changes
    }

    /// What is held is valid, and in order; and what each model holds is read again of its canonical text, where the names of
    /// its links are linked, as the same header and instances.
    pub fn is_valid(&self)
        ensures valid { IsValid self.now.content }
        ensures again { IsReadAgainWhole self.now.content }
    {
        // A look at the field gives the proof what holds of it.
        let _holdings = &self.holdings;
    }

    /// The partner of this name.
    pub fn caller(&self, name: &Text) -> Option<Caller>
        ensures { MatchOption result (has_text self.now.content.partners name.now ≡ false)
            (λ place. (place < length self.now.content.partners) × (partner_at self.now.content place ≡ name.now)) }
    {
        match self.holdings.place_of_partner(name) {
            Some(place) => Some(Caller { place }),
            None => None,
        }
    }

    /// The partner at this place of the partner table.
    pub fn caller_at(&self, place: usize) -> Caller
        requires { place < length self.now.content.partners }
        ensures { result ≡ place }
    {
        Caller { place }
    }

    /// The reply to a request, and what is still to be done. Nothing that is seen is changed, and
    /// room is made. Where memory is wanting, the reply is that, with nothing to be done.
    pub fn prepare(&mut self, alloc: Global, caller: Caller, request: Request) -> Pending
        requires { caller < length self.old.content.partners }
        ensures content { self.new.content ≡ self.old.content }
        ensures prepared { IsPrepared self.old.content self.new.both (turn self.old.content caller request) result }
        ensures ready { IsReady self.new result }
    {
        step_keeps_validity();
        self.holdings.prepare(alloc, caller.place, request)
    }

    /// Does what was prepared, and gives the reply. It takes no memory.
    pub fn commit(&mut self, pending: Pending) -> Reply
        requires { IsReady self.old pending }
        ensures reply { result ≡ pending.reply }
        ensures content { self.new.content ≡ made pending.steps self.old }
        ensures valid { IsValid self.new.content }
    {
        self.changes = counted(self.changes, &pending);
        self.holdings.commit(pending)
    }

    /// One turn of a partner.
    pub fn handle(&mut self, alloc: Global, caller: Caller, request: Request) -> Reply
        requires { caller < length self.old.content.partners }
        ensures reply { MayReply (effect self.old.content (turn self.old.content caller request)) result }
        ensures content { self.new.content ≡ after self.old.content (turn self.old.content caller request) result }
        ensures partners { self.new.content.partners ≡ self.old.content.partners }
        ensures valid { IsValid self.new.content }
    {
        let pending = self.prepare(alloc, caller, request);
        self.commit(pending)
    }

    /// The requests, one turn after another, with a reply to each.
    ///
    /// # Errors
    ///
    /// There is no memory for the list of replies, and no request was made.
    pub fn run(&mut self, alloc: Global, calls: Vec<Call>) -> Result<Vec<Reply>, AllocError>
        requires { AllByRecursion (λ call. call.caller < length self.old.content.partners) calls.items }
        ensures run { IfOk result (λ replies.
            Run self.old.content (turns_of self.old.content calls.items) replies.items self.new.content) }
        ensures partners { self.new.content.partners ≡ self.old.content.partners }
        ensures valid { IsValid self.new.content }
        // Where the turns of others are outside of what a partner reaches, his replies are those that he gets alone.
        ensures alone { IfOk result (λ replies. (c : List ℕ) → let turns = turns_of self.old.content calls.items in
            OthersOutside self.old.content c turns replies.items →
            replies_to c turns replies.items ≡ alone (part self.old.content c) c (requests_of c turns)) }
        ensures left { IfOk result (λ replies. (c : List ℕ) → let turns = turns_of self.old.content calls.items in
            OthersOutside self.old.content c turns replies.items →
            part self.new.content c ≡ part (alone_end (part self.old.content c) c (requests_of c turns)) c) }
        ensures err { OnErr result (self.new.content ≡ self.old.content) }
    {
        one_run();
        self.is_valid();
        let mut replies = Vec::with_capacity(alloc, calls.len())?;
        for call in calls {
            let Call { caller, request } = call;
            replies.push_reserved(self.handle(alloc, caller, request));
        }
        Ok(replies)
    }
}

//! What a repository holds, and the two halves of a turn.
#![tactic(auto, unfolding(crate::specs::Held::Fits))]

use crate::opening::may_open;
use crate::plans::plan;
use crate::steps::{Pending, make_steps};
use ex_loaded::LoadedSchema;
use plain_data::{Rows, Text};
use rp_access::Access;
use rp_index::Indexed;
use rp_plain::messages::{NewFault, Reply, Request};
use rp_readers::{KeptLayouts, Readers, place_among};
use rp_reports::SchemaRules;
use rp_rows::rows::{Grant, Key, Listing, ModelContent};
use rp_sight::Table;
use rp_store::{Prepared, Store};
use shared::Shared;
use std::alloc::{AllocError, Global};
use std::marker::Model;

/// What a repository holds, in memory.
pub struct Holdings<'s> {
    schemas: &'s [LoadedSchema<'s>],
    layouts: KeptLayouts<'s>,
    rules: SchemaRules<'s>,
    partners: Vec<Text>,
    store: Store,
    access: Access,
}

impl Drop for Holdings<'_> {
    fn drop(self) {
        let Holdings {
            schemas: _,
            layouts,
            rules,
            partners,
            store,
            access,
        } = self;
        drop(layouts);
        drop(rules);
        drop(partners);
        drop(store);
        drop(access);
    }
}

impl<'s> Model for Holdings<'s> {
    ghost use Rattle.std.specs.Prelude.{◌≡◌};
    ghost use Rattle.rp_sight.specs.Stored.{joined};
    ghost use Rattle.rp_core.specs.Held.{Kept, AreAlike};

    ghost Value = { Kept };

    ghost use Rattle.std.specs.Coded.{codes};
    ghost use Rattle.ex_types.specs.contracts.schema.CheckedSchema as schema_type;
    ghost use Rattle.rp_rows.specs.contracts.rows.ModelContent as content_type;

    ghost coded = { Prim.hlevel (codes, schema_type.the_row.coded, content_type.the_row.coded) };

    ghost view = { λ h. record {
      content = record { schemas = h.schemas.now; partners = h.partners.items; models = joined h.store.entries h.access.models.entries; groups = h.access.groups.rows };
      both = record { models = h.store; access = h.access };
    } };

    ghost invariant = { λ h. record { layouts : h.layouts ≡ h.schemas.now; rules : h.rules ≡ h.schemas.now; alike : AreAlike (record { models = h.store; access = h.access }) } };
}

impl<'s> Holdings<'s> {
    ghost use Rattle.std.specs.Prelude.{◌≡◌, ◌≢◌, ◌<◌, false, length, Some, None, OnOk, OnErr, IfOk, IfErr, MatchOption};
    ghost use Rattle.std.specs.List.{find};
    ghost use Rattle.rp_rows.specs.Rows.{is_row};
    ghost use Rattle.rp_plain.specs.Meaning.{has_text};
    ghost use Rattle.rp_plain.specs.Opening.{new_fault, opened};
    ghost use Rattle.rp_plain.specs.Valid.{IsOrdered};
    ghost use Rattle.rp_core.specs.Held.{partner_at, turn, made_of, Fits, IsPrepared};
    ghost use Rattle.rp_readers.specs.Named.{AreNamed};
    ghost use Rattle.rp_readers.specs.Listed.{AreListed};
    ghost use Rattle.rp_restore_laws.specs.Restoring.{row_of, with_model, with_group};

    /// Nothing but these schemas and partners.
    ///
    /// # Errors
    ///
    /// The first that holds of `TwoSchemas`, `TwoPartners`, `BadName` and `TooMany`; or `NoMemory`.
    pub fn new(
        alloc: Global,
        schemas: &'s [LoadedSchema<'s>],
        partners: Vec<Text>,
    ) -> Result<Holdings<'s>, NewFault>
        ensures ok { IfOk result (λ _. new_fault schemas.now partners.items ≡ None) }
        ensures content { IfOk result (λ holdings. holdings.content ≡ opened schemas.now partners.items) }
        ensures err { IfErr result (λ fault. fault ≢ NewFault.NoMemory → new_fault schemas.now partners.items ≡ Some fault) }
    {
        may_open(alloc, schemas, &partners)?;
        Ok(Holdings {
            schemas,
            layouts: KeptLayouts::of(alloc, schemas)?,
            rules: SchemaRules::of(alloc, schemas)?,
            partners,
            store: Store::new(alloc),
            access: Access::new(alloc),
        })
    }

    /// The schemas, with what was found in them once.
    pub fn schemas(&self) -> &'s [LoadedSchema<'s>]
        ensures { result.now ≡ self.now.content.schemas }
    {
        self.schemas
    }

    /// The names of the partners, in the order of the partner table.
    pub fn partners(&self) -> &[Text]
        ensures { result.now ≡ self.now.content.partners }
    {
        &self.partners
    }

    /// The rows of models, in the order of owner and name.
    pub fn models(&self) -> Table<'_, Indexed>
        ensures { result.rows ≡ self.now.content.models }
    {
        self.access.models(&self.store)
    }

    /// The rows of groups, in the order of owner and name.
    pub fn groups(&self) -> Table<'_, Listing>
        ensures { result.rows ≡ self.now.content.groups }
    {
        self.access.groups().table()
    }

    /// Where the partner of this name stands among the partners.
    pub fn place_of_partner(&self, name: &Text) -> Option<usize>
        ensures { MatchOption result (has_text self.now.content.partners name.now ≡ false)
            (λ place. (place < length self.now.content.partners) × (partner_at self.now.content place ≡ name.now)) }
    {
        place_among(&self.partners, name)
    }

    /// The reply to a request of the partner at this place, and what is still to be done. Nothing
    /// that is held is changed, and room is made for what is to be done. Where memory is wanting,
    /// the reply is that, with nothing to be done.
    pub fn prepare(&mut self, alloc: Global, place: usize, request: Request) -> Pending
        requires partner { place < length self.old.content.partners }
        requires order { IsOrdered self.old.content }
        requires named { AreNamed self.old.content }
        requires listed { AreListed self.old.content }
        ensures content { self.new.content ≡ self.old.content }
        ensures prepared { IsPrepared self.old.content self.new.both (turn self.old.content place request) result }
        ensures fits { Fits self.new result }
    {
        let models = self.access.models(&self.store);
        let asked = Readers {
            schemas: self.schemas,
            partners: &self.partners,
            models: &models,
            access: &self.access,
            caller: &self.partners[place],
        };
        match plan(alloc, &asked, &mut self.layouts, &self.rules, request) {
            Err(refusal) => Pending::refused(alloc, refusal),
            Ok(plan) => match Pending::of_plan(alloc, &mut self.store, &mut self.access, plan) {
                Ok(pending) => pending,
                Err(refusal) => Pending::refused(alloc, refusal),
            },
        }
    }

    /// Does what was prepared, and gives the reply. It takes no memory.
    pub fn commit(&mut self, pending: Pending) -> Reply
        requires { Fits self.old pending }
        ensures reply { result ≡ pending.reply }
        ensures content { self.new.content ≡ made_of pending.steps self.old.both self.old.content }
    {
        let Pending { reply, steps } = pending;
        make_steps(&mut self.store, &mut self.access, steps);
        reply
    }

    /// The model of the key holds this from now on, with these grants on it. Without memory nothing that is held changes.
    pub fn hold_model(
        &mut self,
        alloc: Global,
        key: Key,
        holds: ModelContent,
        grants: Rows<Grant>,
    ) -> Result<(), AllocError>
        ensures held { OnOk result (self.new.content ≡ with_model (row_of key holds grants) self.old.content) }
        ensures kept { OnErr result (self.new.content ≡ self.old.content) }
    {
        let key = Shared::new(alloc, key)?;
        let again = key.share()?;
        let indexed = Indexed::with_index(alloc, holds)?;
        self.store.reserve()?;
        self.access.hold_model(again, grants)?;
        self.store.commit(Prepared::Hold(key, indexed));
        Ok(())
    }

    /// A group that there isn't stands under its key from now on, with all the grants on it. Without memory nothing that is held
    /// changes.
    pub fn hold_group(
        &mut self,
        alloc: Global,
        key: Key,
        listing: Listing,
        grants: Rows<Grant>,
    ) -> Result<(), AllocError>
        requires { find (is_row key) self.old.content.groups ≡ None }
        ensures held { OnOk result (self.new.content ≡ with_group (row_of key listing grants) self.old.content) }
        ensures kept { OnErr result (self.new.content ≡ self.old.content) }
    {
        self.access.hold_group(alloc, key, listing, grants)
    }
}

//! Instances.

ghost use Rattle.std.specs.Prelude.{◌≡◌, ◌++◌, ◌∷◌, [], OnOk, length, map, take, drop};
ghost use Rattle.std.specs.List.{flat_map};
ghost use Rattle.plain_data.specs.Numbers.{numbered};
ghost use Rattle.ex_layouts.specs.Layouts as layouts_spec;
ghost use Rattle.p21_spelling.specs.Instances as spelled;
ghost use Rattle.p21_spelling.specs.Tokens.{enclosed};
ghost use Rattle.p21_canonical.specs.Trees as spec;

use crate::output::Output;
use crate::tokens::write_name;
use crate::value::write_attributes;
use ex_layouts::{Dictionary, Layout, Layouts, layout_of};
use ex_named::NamedEntity;
use ex_slots::Slot;
use rp_content::{Entities, Instance};
use rp_value::Value;
use std::alloc::{AllocError, Global};

/// The name of an entity, in upper case.
pub(crate) fn entity_name(entities: &[NamedEntity], number: usize) -> &str
    ensures { result.now ≡ spec.entity_name entities.now number }
{
    match entities.get(number) {
        Some(entity) => entity.name.text.as_str(),
        None => "",
    }
}

/// `KEYWORD(values)`
fn write_record(
    out: &mut Output,
    schema: &Dictionary<'_>,
    entity: usize,
    slots: &[Slot<'_>],
    values: &[Value],
) -> Result<(), AllocError>
    ensures { OnOk result (out.new ≡ out.old ++ spelled.record_text (spec.record_of schema.now (spec.part entity slots.now) values.now)) }
{
    out.push_str(entity_name(schema.entities(), entity))?;
    write_attributes(out, schema.types(), slots, values)
}

/// The values of these attributes, and the others behind them.
#[tactic(auto, using(crate::proofs::Marks::many))]
fn parted<'v>(values: &'v [Value], slots: &[Slot<'_>]) -> (&'v [Value], &'v [Value])
    ensures first { result.0.now ≡ take (length (spec.marks_of slots.now)) values.now }
    ensures others { result.1.now ≡ drop (length (spec.marks_of slots.now)) values.now }
{
    let count = slots.len();
    if count <= values.len() {
        values.split_at(count)
    } else {
        (values, &[])
    }
}

/// A record of each entity with the values of its own attributes.
fn write_records(
    out: &mut Output,
    schema: &Dictionary<'_>,
    all: &[usize],
    layout: &Layout<'_>,
    values: &[Value],
) -> Result<(), AllocError>
    ensures { OnOk result (out.new ≡ out.old ++ flat_map spelled.record_text (spec.records schema.now (numbered (spec.own_part layout.now.slots) all.now) values.now)) }
{
    let mut left = values;
    for (place, entity) in all.iter().enumerate() {
        let slots = layout.slots_of(place);
        let (own, others) = parted(left, slots);
        write_record(out, schema, *entity, slots, own)?;
        left = others;
    }
    Ok(())
}

/// The records of several entities in parentheses.
fn write_several(
    out: &mut Output,
    schema: &Dictionary<'_>,
    all: &[usize],
    layout: &Layout<'_>,
    values: &[Value],
) -> Result<(), AllocError>
    ensures { OnOk result (out.new ≡ out.old ++ enclosed (flat_map spelled.record_text (spec.records schema.now (numbered (spec.own_part layout.now.slots) all.now) values.now))) }
{
    out.push(b'(')?;
    write_records(out, schema, all, layout, values)?;
    out.push(b')')
}

/// The records of an instance, by what the instances of its entities have values of.
fn write_laid_out(
    out: &mut Output,
    schema: &Dictionary<'_>,
    entities: &Entities,
    layout: &Layout<'_>,
    values: &[Value],
) -> Result<(), AllocError>
    requires { layout.now ≡ layouts_spec.layout schema.now entities.now }
    ensures { OnOk result (out.new ≡ out.old ++ spelled.mapping_text (spec.mapping schema.now entities.now values.now)) }
{
    match entities {
        Entities::Leaf(leaf) => write_record(out, schema, *leaf, layout.slots_of(0), values),
        Entities::Several(all) => write_several(out, schema, all.as_slice(), layout, values),
    }
}

/// The records of an instance. What instances of its entities have values of is kept.
fn write_mapping(
    alloc: Global,
    out: &mut Output,
    layouts: &mut Layouts<'_>,
    entities: &Entities,
    values: &[Value],
) -> Result<(), AllocError>
    ensures layouts { layouts.new ≡ layouts.old }
    ensures text { OnOk result (out.new ≡ out.old ++ spelled.mapping_text (spec.mapping layouts.old entities.now values.now)) }
{
    let schema = layouts.dictionary();
    if let Some(layout) = layouts.known(entities) {
        return write_laid_out(out, schema, entities, layout, values);
    }
    let layout = layout_of(alloc, schema, entities)?;
    write_laid_out(out, schema, entities, &layout, values)?;
    layouts.keep(entities, layout)
}

/// `#name=mapping;`
pub fn write_entity_instance(
    alloc: Global,
    out: &mut Output,
    layouts: &mut Layouts<'_>,
    instance: &Instance,
) -> Result<(), AllocError>
    ensures layouts { layouts.new ≡ layouts.old }
    ensures text { OnOk result (out.new ≡ out.old ++ spelled.instance_text (spec.instance_tree layouts.old instance.now)) }
{
    write_name(out, instance.name)?;
    out.push(b'=')?;
    write_mapping(
        alloc,
        out,
        layouts,
        &instance.entities,
        instance.values.as_slice(),
    )?;
    out.push(b';')
}

/// An instance and a line feed.
fn write_line(
    alloc: Global,
    out: &mut Output,
    layouts: &mut Layouts<'_>,
    instance: &Instance,
) -> Result<(), AllocError>
    ensures layouts { layouts.new ≡ layouts.old }
    ensures text { OnOk result (out.new ≡ out.old ++ (spelled.instance_text (spec.instance_tree layouts.old instance.now) ++ 10 ∷ [])) }
{
    write_entity_instance(alloc, out, layouts, instance)?;
    out.push(b'\n')
}

/// Instances, one line each.
pub fn write_lines<'s>(
    alloc: Global,
    out: &mut Output,
    schema: &'s Dictionary<'s>,
    instances: &[Instance],
) -> Result<(), AllocError>
    ensures { OnOk result (out.new ≡ out.old ++ spelled.lines (map (spec.instance_tree schema.now) instances.now)) }
{
    let mut layouts = Layouts::of(alloc, schema)?;
    for instance in instances {
        write_line(alloc, out, &mut layouts, instance)?;
    }
    Ok(())
}

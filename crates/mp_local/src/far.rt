// The first name that is shifted too far.
ghost use Rattle.std.specs.Prelude.{◌≡◌, map, option_map, IfOk, OnOk};
ghost use Rattle.std.specs.List.{flat_map};
ghost use Rattle.mp_statements.specs.Parts.{items_of};
ghost use Rattle.mp_file.specs.Shown.{item_of, file_of};
ghost use Rattle.mp_values.specs.Shifts.{Shifts, item_readings, shifts_from, with_item, far_name, no_locals};
ghost use Rattle.mp_local.specs.Ends.{Spans};
ghost use Rattle.mp_local.specs.Known.{Knows, counted};
ghost use Rattle.mp_local.specs.Reaches.{far_of, stopped_far, Goes};

use crate::ends::Ends;
use crate::known::{Known, Scope};
use crate::locals::Locals;
use crate::parts::items_of;
use crate::reach::item_reach;
use mp_base::NoMemory;
use mp_file::{File, Item, Named};
use mp_names::Names;
use std::alloc::Global;

/// A name from which a shift comes that is too far, and the greatest one that does, either way, in periods: at most
/// 2^124.
#[derive(Clone, Copy, Debug)]
pub struct FarName<'t> {
    pub name: Named<'t>,
    pub greatest: u128,
}

/// The first name in a model's items, in text order, from which a shift of more periods than the limit comes, either
/// way, once locals are replaced and differences are taken; shifts of names that do not count are none (modpath's own).
pub fn far_name<'t>(
    alloc: Global,
    limit: u32,
    scope: Scope,
    names: &Names<'t>,
    file: &File<'t>,
) -> Result<Option<FarName<'t>>, NoMemory>
    ensures { IfOk result (λ far. option_map far_of far ≡ option_map stopped_far (far_name limit (no_locals (counted scope names.now)) (items_of (file_of file.now)))) }
{
    let mut known = Known {
        limit,
        scope,
        names,
        locals: Locals::new(alloc),
    };
    'turns: for statement in file.statements.as_slice() {
        let far = far_in_items(&mut known, items_of(statement))?;
        if far.is_some() {
            return Ok(far);
        }
    }
    Ok(None)
}

// The first such name in these items; or what is known after them.
fn far_in_items<'t>(
    known: &mut Known<'_, 't>,
    items: &[Item<'t>],
) -> Result<Option<FarName<'t>>, NoMemory>
    ensures { IfOk result (λ far. (s : Shifts) → Knows known.old s → Goes known.old.limit s (map item_of items.now) known.new far) }
{
    'turns: for item in items {
        let ends = match item_reach(known, item) {
            Ok(ends) => ends,
            Err(far) => return Ok(Some(far)),
        };
        add_item(known, item, ends)?;
    }
    Ok(None)
}

// What is known after an item from whose names shifts of these ends come.
fn add_item<'t>(
    known: &mut Known<'_, 't>,
    item: &Item<'t>,
    ends: Option<Ends>,
) -> Result<(), NoMemory>
    ensures limit { known.new.limit ≡ known.old.limit }
    ensures knows { OnOk result ((s : Shifts) → Knows known.old s → Spans ends (flat_map (shifts_from s) (item_readings (item_of item.now))) → Knows known.new (with_item s (item_of item.now))) }
{
    match item {
        Item::Local { name, .. } => known.locals.set(name.name, ends),
        Item::Equates { .. } => Ok(()),
    }
}

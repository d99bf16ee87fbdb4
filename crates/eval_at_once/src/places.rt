//! Where designators begin, and the selectors that have no expression.

ghost use Rattle.run_laws.specs.Turns.{give};
ghost use Rattle.ob_types.specs.Layout.{field_place};
ghost use Rattle.ob_types.specs.Expressions.{field_of, object_of, load};
ghost use Rattle.ob_types.specs.Meaning.{base_of, at_most};
ghost use Rattle.eval_store.specs.Did.{Did};
ghost use Rattle.eval_at_once.specs.Here.{here_of, guarded_in};

use crate::active::Active;
use eval_layouts::LaidProgram;
use eval_store::{Address, Area, Handed, Stop, World};
use ob_types::Base;

/// Where a designator begins.
#[inline]
pub fn base(laid: &LaidProgram, active: &Active, world: &World, at: Base) -> Result<Handed, Stop>
    ensures { Did (base_of laid.now (at_most laid.now active.now.fuel) (here_of active.now) at world.now) result world.now }
{
    match at {
        Base::Done => Ok(Handed::at(Address {
            area: Area::Globals,
            object: 0,
            cell: 0,
        })),
        Base::Global { module, variable } => match laid.global(module, variable) {
            None => Err(Stop::NoMemory),
            Some(cell) => Ok(Handed::at(Address {
                area: Area::Globals,
                object: u64::from(module) + 1,
                cell,
            })),
        },
        Base::Local(variable) => match laid.local(active.procedure, variable) {
            None => Err(Stop::NoMemory),
            Some(cell) => Ok(Handed::at(Address {
                area: Area::Frames,
                object: active.frame,
                cell,
            })),
        },
        Base::Parameter(k) => match active.arguments.as_slice().get(k as usize) {
            None => Err(Stop::NoSense),
            Some(handed) => Ok(*handed),
        },
        Base::Text(k) => match laid.text_number(active.procedure, k) {
            None => Err(Stop::NoMemory),
            Some(object) => Ok(Handed::at(Address {
                area: Area::Strings,
                object,
                cell: 0,
            })),
        },
    }
}

/// A field of a record, by the record type that adds it.
#[inline]
pub fn member(
    laid: &LaidProgram,
    world: &World,
    handed: Handed,
    r: u32,
    field: u32,
) -> Result<Handed, Stop>
    ensures { Did (field_of (give handed) (field_place laid.now.types r field) world.now) result world.now }
{
    match laid.field_place(r, field) {
        None => Err(Stop::NoMemory),
        Some(cells) => world.field_of(handed, cells),
    }
}

/// The object of a pointer that stands at a place, guarded by these record types.
pub fn dereferenced(
    laid: &LaidProgram,
    active: &Active,
    world: &World,
    handed: Handed,
    guards: &[u32],
) -> Result<Handed, Stop>
    ensures { Did (object_of active.now.procedure (guarded_in laid.now active.now (load (give handed)) guards.now) world.now) result world.now }
{
    match world.load(handed) {
        Err(stop) => Err(stop),
        Ok(c) => match world.all_guarded(laid.types(), active.procedure, c, guards) {
            Err(stop) => Err(stop),
            Ok(d) => world.object_of(active.procedure, d),
        },
    }
}

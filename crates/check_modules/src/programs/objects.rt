//! The names that a module offers.

ghost use Rattle.std.specs.Prelude.{◌≡◌, [], ◌++◌, List, ℕ, IfOk, IfErr, OnOk};
ghost use Rattle.ob_judge.specs.Image.{Bits};
ghost use Rattle.ob_judge.specs.Making.{variable_number as judged_number};
ghost use Rattle.judged_tree.specs.Plain.{plain_constant};
ghost use Rattle.check_types.specs.names.Basics.{basic_shape};
ghost use Rattle.check_types.specs.names.Meaning.{constant_of, place_of};
ghost use Rattle.table_builder.specs.Builder.{IsBuilt};
ghost use Rattle.check_making.specs.Making.{offered_of, AreTextPlaces};
ghost use Rattle.judged_outlines.specs.ends.Ends.{IsValueOf};
ghost use Rattle.check_modules.specs.programs.Entities.{AreObjects, AreTold, IsEntity, IsTold, made_of};

use check_making::{Offered, TextPlace};
use check_types::names::{Basic, Constant, Named, VariablePlace};
use check_types::steps::CheckFault;
use items::Items;
use ob_types::{Entity, Object};
use std::alloc::Global;
use table_builder::TableBuilder;

// A constant that is no string, by its type and its 64 bits.
fn value(basic: Basic, bits: u64) -> ob_types::Constant
    requires { IsValueOf (basic_shape basic) bits }
    ensures { (texts : List (List ℕ)) → plain_constant texts result ≡ Bits (basic_shape basic) bits }
{
    match basic {
        Basic::Int => ob_types::Constant::Int(bits.cast_signed()),
        Basic::Bool => ob_types::Constant::Bool(bits == 1),
        Basic::Char => ob_types::Constant::Char(bits as u8),
        Basic::Byte => unreachable!(),
        Basic::Set => ob_types::Constant::Set(bits),
        Basic::Nil => ob_types::Constant::Nil,
    }
}

// A string constant, by its number.
fn text(places: &[TextPlace], number: u32) -> ob_types::Constant
    ensures { (texts strings : List (List ℕ)) → AreTextPlaces texts places.now strings
        → plain_constant texts result ≡ constant_of (record { kinds = []; records = []; signatures = [] }) strings (Constant.Chars number) }
{
    let number = number as usize;
    if number < places.len() {
        let place = places[number];
        return ob_types::Constant::Text {
            module: place.module,
            from: place.from,
            to: place.to,
        };
    }
    ob_types::Constant::Text {
        module: 0,
        from: 0,
        to: 0,
    }
}

// A variable's place among those of its module.
fn variable_number(place: VariablePlace) -> u32
    ensures { result ≡ judged_number (place_of place) }
{
    match place {
        VariablePlace::Global {
            module: _,
            variable,
        } => variable,
        _ => 0,
    }
}

// What the program has of what a name stands for; nothing of modules and predeclared procedures.
fn entity(types: &TableBuilder, places: &[TextPlace], named: Named) -> Option<Entity>
    requires built { IsBuilt types.now }
    requires told { IsTold types.now.table.entries.items named }
    ensures { (texts strings : List (List ℕ)) → AreTextPlaces texts places.now strings → IsEntity texts strings types.now.table named result }
{
    match named {
        Named::Constant(Constant::Bits(basic, bits)) => Some(Entity::Constant(value(basic, bits))),
        Named::Constant(Constant::Chars(number)) => Some(Entity::Constant(text(places, number))),
        Named::Type(of) => Some(Entity::Type(types.number(of))),
        Named::Variable(variable) => Some(Entity::Variable(variable_number(variable.place))),
        Named::Procedure {
            number,
            signature: _,
            is_local: _,
        } => Some(Entity::Procedure(number)),
        Named::Standard(_) => None,
        Named::Module(_) => None,
    }
}

// One name more, if the program has it.
fn put(
    objects: &mut Items<Object>,
    alloc: Global,
    offer: &Offered,
    entity: Option<Entity>,
) -> Result<(), CheckFault>
    ensures made { OnOk result (objects.new ≡ objects.old ++ made_of offer.now entity) }
    ensures memory { IfErr result (λ e. e ≡ CheckFault.Memory) }
{
    if let Some(entity) = entity {
        let name = Items::from_slice(alloc, offer.name.as_slice())?;
        objects.push(Object {
            name,
            exported: offer.declared.exported,
            entity,
        })?;
    }
    Ok(())
}

/// The names that a module offers, as the program has them.
pub fn objects_of(
    alloc: Global,
    types: &TableBuilder,
    places: &[TextPlace],
    offered: &[Offered],
) -> Result<Items<Object>, CheckFault>
    requires built { IsBuilt types.now }
    requires told { AreTold types.now.table.entries.items offered.now }
    ensures objects { IfOk result (λ xs. (texts strings : List (List ℕ)) → AreTextPlaces texts places.now strings
        → AreObjects texts types.now.table xs (offered_of types.now.table.types strings offered.now)) }
    ensures memory { IfErr result (λ e. e ≡ CheckFault.Memory) }
{
    let mut objects = Items::new(alloc);
    for offer in offered {
        let entity = entity(types, places, offer.declared.named);
        put(&mut objects, alloc, offer, entity)?;
    }
    Ok(objects)
}

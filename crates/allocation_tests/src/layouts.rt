//! Homes and beginnings of a few parts, and of many.

use block_runs::Code;
use link_layout::*;
use std::test::Fail;

fn store(reg: u8, value: u32) -> Copy {
    Copy {
        to: Spot::Home(value),
        from: Spot::Reg(reg),
    }
}

#[test]
fn homes_rise(rt: HostRuntime) -> Result<(), Fail> {
    let homes = Ranks::of(rt.alloc(), &[store(0, 7), store(1, 2), store(2, 7)])?;
    assert_eq!(rt; homes.count(), 2);
    assert_eq!(rt; homes.rank(2), Some(0));
    assert_eq!(rt; homes.rank(7), Some(1));
    assert_eq!(rt; homes.rank(3), None);
    Ok(())
}

#[test]
fn many_homes(rt: HostRuntime) -> Result<(), Fail> {
    let mut copies = Vec::new(rt.alloc());
    for value in 0..20_000 {
        copies.push(store(0, 20_000 - value))?;
    }
    let homes = Ranks::of(rt.alloc(), copies.as_slice())?;
    assert_eq!(rt; homes.count(), 20_000);
    assert_eq!(rt; homes.rank(20_000), Some(19_999));
    Ok(())
}

#[test]
fn procedures_stand_behind_the_routines(rt: HostRuntime) -> Result<(), Fail> {
    let starts = entries(rt.alloc(), 1, &[5, 0, 7])?;
    assert_eq!(rt; starts.as_slice(), [40, 45, 45].as_slice());
    Ok(())
}

#[test]
fn as_many_words_as_an_image_has(rt: HostRuntime) -> Result<(), Fail> {
    let widths = vec![in rt.alloc(); 1u32; 262_104]?;
    assert_eq!(rt; entries(rt.alloc(), 1, widths.as_slice())?.len(), 262_104);
    assert!(rt; entries(rt.alloc(), 2, widths.as_slice()).is_err());
    Ok(())
}

#[test]
fn blocks_by_number(rt: HostRuntime) -> Result<(), Fail> {
    let places = block_places(rt.alloc(), 50, &[0, 2, 1], &[3, 4, 5], 3)?;
    assert_eq!(rt; places.as_slice(), [50, 57, 53].as_slice());
    Ok(())
}

#[test]
fn constants_take_one_to_four_words(rt: HostRuntime) -> Result<(), Fail> {
    assert_eq!(rt; operation_width(0, Code::Const(0)), 1);
    assert_eq!(rt; operation_width(0, Code::Const(0x1234_5678_9abc_def0)), 4);
    Ok(())
}

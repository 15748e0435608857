// Examples of cards: what opens, what is read, and what is refused.
use crate::made::{THREE_STEPS, TWO_STEPS, spoiled_at};
use bounds::{Fault, NoSuchPlace, Reason, Source, first_spoiled};
use card::{Card, CardRefusal};
use std::test::Fail;

#[test]
fn one_record(rt: HostRuntime) -> Result<(), Fail> {
    let bytes = TWO_STEPS;
    let card = Card::open(&bytes)?;
    assert_eq!(rt; card.steps(), 2);
    assert_eq!(rt; card.count(), 1);
    let bound = card.item(0)??;
    assert_eq!(rt; bound.from_step(), 0);
    assert_eq!(rt; bound.to_step(), 1);
    assert_eq!(rt; bound.lower_end(), Some(10));
    assert_eq!(rt; bound.upper_end(), Some(20));
    assert_eq!(rt; card.item(1), Err(NoSuchPlace));
    Ok(())
}

#[test]
fn negative_and_absent_ends(rt: HostRuntime) -> Result<(), Fail> {
    let bytes = THREE_STEPS;
    let card = Card::open(&bytes)?;
    assert_eq!(rt; card.steps(), 3);
    assert_eq!(rt; card.count(), 2);
    assert_eq!(rt; first_spoiled(&card), None);
    let first = card.item(0)??;
    assert_eq!(rt; first.lower_end(), Some(-3));
    assert_eq!(rt; first.upper_end(), None);
    let second = card.item(1)??;
    assert_eq!(rt; second.from_step(), 2);
    assert_eq!(rt; second.lower_end(), None);
    assert_eq!(rt; second.upper_end(), Some(-1_000_000));
    Ok(())
}

#[test]
fn step_not_below(rt: HostRuntime) -> Result<(), Fail> {
    // 2 steps, and a record from 0 to 2.
    let bytes: [u8; 10] = [0x10, 0x40, 0x10, 0x00, 0x2c, 0x00, 0x01, 0x40, 0x00, 0x14];
    let card = Card::open(&bytes)?;
    assert_eq!(rt; Fault::NoSuchStep.number(), 3);
    assert_eq!(rt; first_spoiled(&card), spoiled_at(0, Fault::NoSuchStep));
    Ok(())
}

#[test]
fn end_out_of_reach(rt: HostRuntime) -> Result<(), Fail> {
    // The upper end is 1,000,001.
    let bytes: [u8; 10] = [0x10, 0x40, 0x10, 0x00, 0x1c, 0x00, 0x01, 0x4f, 0x42, 0x41];
    let card = Card::open(&bytes)?;
    assert_eq!(rt; Fault::OutOfReach.number(), 4);
    assert_eq!(rt; first_spoiled(&card), spoiled_at(0, Fault::OutOfReach));
    Ok(())
}

#[test]
fn absent_end_with_a_value(rt: HostRuntime) -> Result<(), Fail> {
    // The lower end is absent, and its field is 10.
    let bytes: [u8; 10] = [0x10, 0x40, 0x10, 0x00, 0x14, 0x00, 0x01, 0x40, 0x00, 0x14];
    let card = Card::open(&bytes)?;
    assert_eq!(rt; Fault::NoEnd.number(), 5);
    assert_eq!(rt; first_spoiled(&card), spoiled_at(0, Fault::NoEnd));
    Ok(())
}

#[test]
fn records_missing(rt: HostRuntime) -> Result<(), Fail> {
    // The header has a record, which is not there.
    let bytes: [u8; 3] = [0x10, 0x40, 0x10];
    let Err(refusal) = Card::open(&bytes) else {
        return Err(Fail::new("opened"));
    };
    assert_eq!(rt; refusal, CardRefusal::Length);
    assert_eq!(rt; refusal.number(), 1);
    Ok(())
}

#[test]
fn other_edition(rt: HostRuntime) -> Result<(), Fail> {
    // The edition is 2; the record is not there either.
    let bytes: [u8; 3] = [0x20, 0x40, 0x10];
    let Err(refusal) = Card::open(&bytes) else {
        return Err(Fail::new("opened"));
    };
    assert_eq!(rt; refusal, CardRefusal::Header);
    assert_eq!(rt; refusal.number(), 2);
    Ok(())
}

#[test]
fn no_header(rt: HostRuntime) -> Result<(), Fail> {
    // One byte too few for a header.
    let bytes: [u8; 2] = [0x20, 0x40];
    let Err(refusal) = Card::open(&bytes) else {
        return Err(Fail::new("opened"));
    };
    assert_eq!(rt; refusal, CardRefusal::Length);
    assert_eq!(rt; refusal.number(), 1);
    Ok(())
}

// Examples of the writer: what it writes, what it keeps, and what it refuses.
use crate::borrowing::{write_other_bytes_while_open, write_same_bytes_after_last_use};
use crate::made::{THREE_STEPS, TWO_STEPS};
use bounds::{Fault, Reason, Source, SpoiledItem};
use card::{Card, CardRefusal, RewriteRefusal, WriteRefusal, rewrite, write_card};
use std::test::Fail;

// Two steps: 0 to 1 [10, 20], and a record without a lower end whose field is 10.
const SPOILED: [u8; 17] = [
    0x10, 0x40, 0x20, 0x00, 0x1c, 0x00, 0x01, 0x40, 0x00, 0x14, 0x00, 0x14, 0x00, 0x01, 0x40, 0x00,
    0x14,
];

#[test]
fn a_read_card_gives_its_bytes_again(rt: HostRuntime) -> Result<(), Fail> {
    let bytes = THREE_STEPS;
    let card = Card::open(&bytes)?;
    let mut out = [0x55; 17];
    let size = write_card(&card, &mut out)?;
    assert_eq!(rt; size, 17);
    assert_eq!(rt; out, THREE_STEPS);
    Ok(())
}

#[test]
fn bytes_behind_are_kept(rt: HostRuntime) -> Result<(), Fail> {
    let bytes = TWO_STEPS;
    let mut out = [0x55; 12];
    let size = rewrite(&bytes, &mut out)?;
    assert_eq!(rt; size, 10);
    assert_eq!(rt;
        out,
        [
            0x10, 0x40, 0x10, 0x00, 0x1c, 0x00, 0x01, 0x40, 0x00, 0x14, 0x55, 0x55,
        ]
    );
    Ok(())
}

#[test]
fn one_byte_too_few(rt: HostRuntime) -> Result<(), Fail> {
    let bytes = TWO_STEPS;
    let card = Card::open(&bytes)?;
    let mut out = [0x55; 9];
    let Err(refusal) = write_card(&card, &mut out) else {
        return Err(Fail::new("written"));
    };
    assert_eq!(rt; refusal, WriteRefusal::Room);
    assert_eq!(rt; refusal.number(), 8);
    assert_eq!(rt; refusal.place(), None);
    assert_eq!(rt; out, [0x55; 9]);
    Ok(())
}

#[test]
fn a_spoiled_item_has_its_place(rt: HostRuntime) -> Result<(), Fail> {
    let bytes = SPOILED;
    let card = Card::open(&bytes)?;
    let mut out = [0x55; 17];
    let Err(refusal) = write_card(&card, &mut out) else {
        return Err(Fail::new("written"));
    };
    assert_eq!(rt;
        refusal,
        WriteRefusal::Spoiled(SpoiledItem {
            place: 1,
            fault: Fault::NoEnd,
        })
    );
    assert_eq!(rt; refusal.number(), 5);
    assert_eq!(rt; refusal.place(), Some(1));
    assert_eq!(rt; out, [0x55; 17]);
    Ok(())
}

#[test]
fn room_is_tested_before_the_items(rt: HostRuntime) -> Result<(), Fail> {
    let bytes = SPOILED;
    let mut out = [0x55; 16];
    let Err(refusal) = rewrite(&bytes, &mut out) else {
        return Err(Fail::new("written"));
    };
    assert_eq!(rt; refusal, RewriteRefusal::Write(WriteRefusal::Room));
    assert_eq!(rt; refusal.number(), 8);
    assert_eq!(rt; refusal.place(), None);
    Ok(())
}

#[test]
fn no_card_is_not_written_again(rt: HostRuntime) -> Result<(), Fail> {
    // The header has a record, which is not there.
    let bytes: [u8; 3] = [0x10, 0x40, 0x10];
    let mut out = [0x55; 10];
    let Err(refusal) = rewrite(&bytes, &mut out) else {
        return Err(Fail::new("written"));
    };
    assert_eq!(rt; refusal, RewriteRefusal::Open(CardRefusal::Length));
    assert_eq!(rt; refusal.number(), 1);
    assert_eq!(rt; refusal.place(), None);
    assert_eq!(rt; out, [0x55; 10]);
    Ok(())
}

#[test]
fn other_bytes_while_the_card_is_open(rt: HostRuntime) {
    let bytes = THREE_STEPS;
    let mut out = [0x55; 17];
    assert_eq!(rt; write_other_bytes_while_open(&bytes, &mut out), Some(3));
    assert_eq!(rt; out, THREE_STEPS);
}

#[test]
fn the_same_bytes_after_the_last_use(rt: HostRuntime) -> Result<(), Fail> {
    let other = TWO_STEPS;
    let card = Card::open(&other)?;
    let mut bytes = THREE_STEPS;
    assert_eq!(rt; write_same_bytes_after_last_use(&mut bytes, &card), Some(3));
    assert_eq!(rt; card.steps(), 2);
    assert_eq!(rt;
        bytes,
        [
            0x10, 0x40, 0x10, 0x00, 0x1c, 0x00, 0x01, 0x40, 0x00, 0x14, 0x08, 0x04, 0x00, 0x00,
            0x10, 0xbd, 0xc0,
        ]
    );
    Ok(())
}

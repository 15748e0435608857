// Examples of compilation: what it answers, and what it leaves in the tables.
use crate::made::{GROUP, LINK, TWO_STEPS, link};
use bounds::{Reason, Rows};
use card::{Card, WriteRefusal, write_card};
use network::{GroupEntry, Kind, Refusal, compile};
use std::test::Fail;

// Two steps, from 1 to 1 [10, 20], which no timetable keeps.
const HOPELESS: [u8; 10] = [0x10, 0x40, 0x10, 0x04, 0x1c, 0x00, 0x01, 0x40, 0x00, 0x14];

#[test]
fn fills_the_front_of_the_tables(rt: HostRuntime) -> Result<(), Fail> {
    let bytes = TWO_STEPS;
    let card = Card::open(&bytes)?;
    let mut distances = [7; 5];
    let mut groups = [GROUP; 3];
    let mut links = [LINK; 3];
    let compiled = compile(&card, &mut distances, &mut groups, &mut links)?;
    assert_eq!(rt; compiled.groups, 2);
    assert_eq!(rt; compiled.links, 2);
    assert_eq!(rt; distances, [0, 20, -10, 0, 7]);
    assert_eq!(rt;
        groups[1],
        GroupEntry {
            leader: 1,
            offset: 0,
        }
    );
    assert_eq!(rt; groups[2], GROUP);
    assert_eq!(rt;
        links,
        [
            link(0, 1, Kind::Most, 20),
            link(0, 1, Kind::Least, 10),
            LINK
        ]
    );
    Ok(())
}

#[test]
fn short_tables_stay_as_they_were(rt: HostRuntime) -> Result<(), Fail> {
    let bytes = TWO_STEPS;
    let card = Card::open(&bytes)?;
    let mut distances = [7; 4];
    let mut groups = [GROUP; 2];
    let mut links = [LINK; 1];
    let Err(refusal) = compile(&card, &mut distances, &mut groups, &mut links) else {
        return Err(Fail::new("compiled"));
    };
    assert_eq!(rt; refusal, Refusal::Tables);
    assert_eq!(rt; refusal.number(), 8);
    assert_eq!(rt; refusal.place(), None);
    assert_eq!(rt; distances, [7; 4]);
    assert_eq!(rt; groups, [GROUP; 2]);
    assert_eq!(rt; links, [LINK; 1]);
    Ok(())
}

#[test]
fn no_timetable_zeroes_the_distances(rt: HostRuntime) -> Result<(), Fail> {
    let bytes = HOPELESS;
    let card = Card::open(&bytes)?;
    let mut distances = [7; 5];
    let mut groups = [GROUP; 2];
    let mut links = [LINK; 2];
    let Err(refusal) = compile(&card, &mut distances, &mut groups, &mut links) else {
        return Err(Fail::new("compiled"));
    };
    assert_eq!(rt; refusal.number(), 9);
    assert_eq!(rt; distances, [0, 0, 0, 0, 7]);
    assert_eq!(rt; groups, [GROUP; 2]);
    assert_eq!(rt; links, [LINK; 2]);
    Ok(())
}

#[test]
fn no_step_is_beyond_the_limits(rt: HostRuntime) -> Result<(), Fail> {
    let source = Rows::new(0, &[]);
    let mut distances = [7; 1];
    let mut groups = [GROUP; 1];
    let mut links = [LINK; 1];
    let Err(refusal) = compile(&source, &mut distances, &mut groups, &mut links) else {
        return Err(Fail::new("compiled"));
    };
    assert_eq!(rt; refusal, Refusal::Limits);
    assert_eq!(rt; refusal.number(), 7);
    assert_eq!(rt; distances, [7; 1]);
    let mut out = [0x55; 3];
    let Err(unwritten) = write_card(&source, &mut out) else {
        return Err(Fail::new("written"));
    };
    assert_eq!(rt; unwritten, WriteRefusal::Limits);
    assert_eq!(rt; unwritten.number(), 7);
    assert_eq!(rt; out, [0x55; 3]);
    Ok(())
}

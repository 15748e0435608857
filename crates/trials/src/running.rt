// Examples of runs over compiled tables, and over one made by hand.
ghost use Rattle.std.specs.Prelude.{◌≡◌};

use crate::made::{DUE, due, link, row};
use bounds::{Reason, Row, Rows};
use network::{GroupEntry, Kind, Link, compile};
use pacer::{CueRefusal, NoSuchStep, OpenRefusal, Run, Short, WaitRefusal, Window};
use std::test::Fail;

// Tables for four steps.
#[derive(Drop)]
struct Tables {
    distances: [i32; 16],
    groups: [GroupEntry; 4],
    links: [Link; 12],
}

impl Tables {
    // Tables that nothing stands in yet.
    fn new() -> Tables {
        Tables {
            distances: [0; 16],
            groups: [GroupEntry::default(); 4],
            links: [Link::default(); 12],
        }
    }
}

// Compiles rows of so many steps, and answers the number of links.
fn compiled(steps: u16, rows: &[Row], tables: &mut Tables) -> Result<usize, Fail> {
    let source = Rows::new(steps, rows);
    let Tables {
        distances,
        groups,
        links,
    } = tables;
    Ok(compile(&source, distances, groups, links)?.links)
}

// Both ends of a window at one second.
fn only(second: u64) -> Window
    ensures { result ≡ record { earliest = second; latest = second } }
{
    Window {
        earliest: second,
        latest: second,
    }
}

// From 0 to 1 [10, 20], from 1 to 2 [30, 40], from 2 to 3 [10, 20], from 0 to 3 [60, 70].
fn washer() -> [Row; 4] {
    [
        row(0, 1, 10, 20),
        row(1, 2, 30, 40),
        row(2, 3, 10, 20),
        row(0, 3, 60, 70),
    ]
}

#[test]
fn a_deadline_holds_back_every_call(rt: HostRuntime) -> Result<(), Fail> {
    let mut tables = Tables::new();
    let count = compiled(4, &washer(), &mut tables)?;
    let mut run = Run::open(4, count, &tables.groups, &tables.links)?;
    assert_eq!(rt; run.cue(4, 10), Err(CueRefusal::NoSuchStep));
    assert_eq!(rt; run.cue(0, 10), Err(CueRefusal::Cued));
    assert_eq!(rt; run.cue(2, 15), Err(CueRefusal::NotReady));
    assert_eq!(rt; run.cue(1, 9), Err(CueRefusal::Early));
    assert_eq!(rt; run.cue(1, 21), Err(CueRefusal::Late));
    assert_eq!(rt; run.wait(20), Ok(()));
    assert_eq!(rt; run.wait(21), Err(WaitRefusal::Late));
    assert_eq!(rt; run.wait(19), Err(WaitRefusal::Past));
    assert_eq!(rt; run.cue(1, 19), Err(CueRefusal::Past));
    assert_eq!(rt; run.cue(1, 20), Ok(()));
    Ok(())
}

#[test]
fn early_cues_leave_one_second_for_the_last_step(rt: HostRuntime) -> Result<(), Fail> {
    let mut tables = Tables::new();
    let count = compiled(4, &washer(), &mut tables)?;
    let mut run = Run::open(4, count, &tables.groups, &tables.links)?;
    assert_eq!(rt; run.look(0), Ok(only(0)));
    assert_eq!(rt; run.cue(1, 10), Ok(()));
    assert_eq!(rt; run.cue(2, 40), Ok(()));
    assert_eq!(rt; run.look(1), Ok(only(10)));
    assert_eq!(rt; run.look(3), Ok(only(60)));
    assert_eq!(rt; run.look(4), Err(NoSuchStep));
    assert_eq!(rt; run.cue(3, 60), Ok(()));
    assert_eq!(rt; run.wait(60), Err(WaitRefusal::AllCued));
    Ok(())
}

#[test]
fn late_cues_do_too(rt: HostRuntime) -> Result<(), Fail> {
    let mut tables = Tables::new();
    let count = compiled(4, &washer(), &mut tables)?;
    let mut run = Run::open(4, count, &tables.groups, &tables.links)?;
    let mut listed = [DUE; 4];
    assert_eq!(rt; run.list(&mut listed[0..2]), Err(Short));
    assert_eq!(rt; run.list(&mut listed), Ok(3));
    assert_eq!(rt; listed, [due(1, 20), due(3, 70), due(2, 1_000_000), DUE]);
    assert_eq!(rt; run.cue(1, 20), Ok(()));
    assert_eq!(rt; run.cue(2, 60), Ok(()));
    assert_eq!(rt; run.look(3), Ok(only(70)));
    assert_eq!(rt; run.list(&mut listed), Ok(1));
    assert_eq!(rt; listed, [due(3, 70), due(3, 70), due(2, 1_000_000), DUE]);
    Ok(())
}

#[test]
fn steps_tied_at_no_distance_start_in_one_second(rt: HostRuntime) -> Result<(), Fail> {
    let rows = [row(0, 1, 5, 10), row(1, 2, 0, 0)];
    let mut tables = Tables::new();
    let count = compiled(3, &rows, &mut tables)?;
    let mut run = Run::open(3, count, &tables.groups, &tables.links)?;
    assert_eq!(rt; run.cue(2, 4), Err(CueRefusal::Early));
    assert_eq!(rt; run.cue(2, 5), Ok(()));
    assert_eq!(rt; run.wait(6), Err(WaitRefusal::Late));
    assert_eq!(rt; run.cue(1, 5), Ok(()));
    Ok(())
}

#[test]
fn steps_without_a_bound_may_wait_to_the_end(rt: HostRuntime) -> Result<(), Fail> {
    let mut tables = Tables::new();
    let count = compiled(2, &[], &mut tables)?;
    let mut run = Run::open(2, count, &tables.groups, &tables.links)?;
    assert_eq!(rt; run.wait(1_000_000), Ok(()));
    assert_eq!(rt; run.wait(1_000_001), Err(WaitRefusal::Late));
    assert_eq!(rt; run.wait(4_294_967_295), Err(WaitRefusal::Late));
    Ok(())
}

#[test]
fn links_made_by_hand_stand_in_any_order(rt: HostRuntime) -> Result<(), Fail> {
    let groups = [leader(0), leader(1), leader(2)];
    let links = [
        link(1, 2, Kind::Least, 30),
        link(0, 1, Kind::Most, 20),
        link(1, 2, Kind::Most, 40),
        link(0, 1, Kind::Least, 10),
    ];
    let mut run = Run::open(3, 4, &groups, &links)?;
    assert_eq!(rt; run.cue(2, 20), Err(CueRefusal::NotReady));
    assert_eq!(rt; run.cue(1, 10), Ok(()));
    assert_eq!(rt;
        run.look(2),
        Ok(Window {
            earliest: 40,
            latest: 50,
        })
    );
    assert_eq!(rt; run.cue(2, 50), Ok(()));
    Ok(())
}

// A step that leads its own group.
fn leader(step: u8) -> GroupEntry
    ensures { result ≡ record { leader = step; offset = 0 } }
{
    GroupEntry {
        leader: step,
        offset: 0,
    }
}

// Whether a run of three steps and so many links is refused with 8.
fn is_unfit<'x>(groups: &'x [GroupEntry], links: &'x [Link], count: usize) -> bool {
    Run::open(3, count, groups, links).is_err_and(|refusal| refusal.number() == 8)
}

#[test]
fn tables_that_do_not_fit_are_not_opened(rt: HostRuntime) {
    let groups = [leader(0), leader(1), leader(1)];
    let links = [link(0, 1, Kind::Most, 20)];
    assert!(rt; !is_unfit(&groups, &links, 1));
    assert!(rt; is_unfit(&groups[0..2], &links, 1));
    assert!(rt; is_unfit(&groups, &links, 2));
    assert!(rt; is_unfit(&[leader(1), leader(1), leader(1)], &links, 1));
    assert!(rt; is_unfit(&[leader(0), leader(2), leader(1)], &links, 1));
    assert!(rt; is_unfit(&groups, &[link(0, 2, Kind::Most, 20)], 1));
    assert!(rt; is_unfit(&groups, &[link(0, 1, Kind::Most, 1_000_001)], 1));
    assert_eq!(rt;
        Run::open(0, 0, &groups, &links).err(),
        Some(OpenRefusal::Limits)
    );
}

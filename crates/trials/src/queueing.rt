// Examples of the ordered queue over lent slots.
use crate::made::{DUE, LINK, due, link};
use network::Kind;
use queue::{Full, Queue};

#[test]
fn due_entries_stand_by_upper_end_and_step(rt: HostRuntime) {
    let mut slots = [DUE; 6];
    let mut queue = Queue::new(&mut slots);
    assert_eq!(rt; queue.len(), 0);
    assert_eq!(rt; queue.push(due(3, 20)), Ok(()));
    assert_eq!(rt; queue.push(due(5, 10)), Ok(()));
    assert_eq!(rt; queue.push(due(1, 20)), Ok(()));
    assert_eq!(rt; queue.push(due(0, 5_000_000_000)), Ok(()));
    assert_eq!(rt; queue.push(due(4, 10)), Ok(()));
    assert_eq!(rt; queue.len(), 5);
    assert_eq!(rt;
        slots,
        [
            due(4, 10),
            due(5, 10),
            due(1, 20),
            due(3, 20),
            due(0, 5_000_000_000),
            DUE,
        ]
    );
}

#[test]
fn a_full_queue_stays_as_it_was(rt: HostRuntime) {
    let mut slots = [DUE; 2];
    let mut queue = Queue::new(&mut slots);
    assert_eq!(rt; queue.push(due(1, 20)), Ok(()));
    assert_eq!(rt; queue.push(due(1, 10)), Ok(()));
    assert_eq!(rt; queue.push(due(0, 0)), Err(Full));
    assert_eq!(rt; queue.len(), 2);
    assert_eq!(rt; slots, [due(1, 10), due(1, 20)]);
}

#[test]
fn links_stand_by_trigger_target_kind_and_seconds(rt: HostRuntime) {
    let mut slots = [LINK; 6];
    let mut queue = Queue::new(&mut slots);
    assert_eq!(rt; queue.push(link(1, 0, Kind::Most, 5)), Ok(()));
    assert_eq!(rt; queue.push(link(0, 2, Kind::Least, 1)), Ok(()));
    assert_eq!(rt; queue.push(link(0, 2, Kind::Most, 8)), Ok(()));
    assert_eq!(rt; queue.push(link(0, 1, Kind::Least, 9)), Ok(()));
    assert_eq!(rt; queue.push(link(0, 2, Kind::Most, 7)), Ok(()));
    assert_eq!(rt;
        slots,
        [
            link(0, 1, Kind::Least, 9),
            link(0, 2, Kind::Most, 7),
            link(0, 2, Kind::Most, 8),
            link(0, 2, Kind::Least, 1),
            link(1, 0, Kind::Most, 5),
            LINK,
        ]
    );
}

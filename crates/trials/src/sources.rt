// Examples of sources: handed rows, two sources joined, a margin, and piles of these.
use crate::made::{row, spoiled_at};
use bounds::{
    Fault, Joined, LooseEnd, Margin, NoSuchPlace, Reason, Rows, Source, first_spoiled,
    first_spoiled_of_pair,
};
use std::test::Fail;

#[test]
fn rows_are_read(rt: HostRuntime) -> Result<(), Fail> {
    let rows = [row(0, 1, 10, 20), row(1, 0, -5, 1_000_000)];
    let source = Rows::new(2, &rows);
    assert_eq!(rt; source.steps(), 2);
    assert_eq!(rt; source.count(), 2);
    assert_eq!(rt; first_spoiled(&source), None);
    let bound = source.item(1)??;
    assert_eq!(rt; bound.from_step(), 1);
    assert_eq!(rt; bound.to_step(), 0);
    assert_eq!(rt; bound.lower_end(), Some(-5));
    assert_eq!(rt; bound.upper_end(), Some(1_000_000));
    assert_eq!(rt; source.item(2), Err(NoSuchPlace));
    Ok(())
}

#[test]
fn rows_are_refused(rt: HostRuntime) {
    let no_such_step = [row(0, 1, 10, 20), row(0, 2, 10, 1_000_001)];
    assert_eq!(rt;
        first_spoiled(&Rows::new(2, &no_such_step)),
        spoiled_at(1, Fault::NoSuchStep)
    );
    let out_of_reach = [row(0, 1, -1_000_001, 20)];
    assert_eq!(rt;
        first_spoiled(&Rows::new(2, &out_of_reach)),
        spoiled_at(0, Fault::OutOfReach)
    );
    let mut untidy = row(0, 1, 10, 20);
    untidy.lower = LooseEnd::Absent(10);
    assert_eq!(rt;
        first_spoiled(&Rows::new(2, &[untidy])),
        spoiled_at(0, Fault::NoEnd)
    );
}

#[test]
fn rows_beyond_the_limit(rt: HostRuntime) -> Result<(), Fail> {
    let rows = [row(0, 1, 10, 20); 600];
    let source = Rows::new(65_535, &rows);
    assert_eq!(rt; source.steps(), 65_535);
    assert_eq!(rt; source.count(), 513);
    assert!(rt; source.item(511).is_ok());
    let Err(past) = source.item(512) else {
        return Err(Fail::new("an item past the limit"));
    };
    assert_eq!(rt; past, NoSuchPlace);
    assert_eq!(rt; past.number(), 6);
    Ok(())
}

#[test]
fn joined_short(rt: HostRuntime) -> Result<(), Fail> {
    let first = [row(0, 1, 1, 9)];
    let second = [row(0, 1, 2, 9), row(3, 4, 3, 9)];
    let joined = Joined::new(Rows::new(2, &first), Rows::new(5, &second));
    assert_eq!(rt; joined.steps(), 5);
    assert_eq!(rt; joined.count(), 3);
    let bound = joined.item(0)??;
    assert_eq!(rt; bound.lower_end(), Some(1));
    let bound = joined.item(2)??;
    assert_eq!(rt; bound.to_step(), 4);
    assert_eq!(rt; bound.lower_end(), Some(3));
    assert_eq!(rt; joined.item(3), Err(NoSuchPlace));
    Ok(())
}

#[test]
fn joined_long(rt: HostRuntime) -> Result<(), Fail> {
    let many = [row(0, 1, 1, 9); 600];
    let one = [row(0, 1, 2, 9)];
    // The whole of the second list lies past the limit.
    let long = Joined::new(Rows::new(2, &many), Rows::new(1, &one));
    assert_eq!(rt; long.steps(), 2);
    assert_eq!(rt; long.count(), 513);
    // Step 1 does not exist in the second source.
    assert_eq!(rt; first_spoiled(&long), None);
    assert_eq!(rt; long.item(512), Err(NoSuchPlace));
    // The second list begins at the last place that is read.
    let split = Joined::new(Rows::new(2, &many[..511]), Rows::new(1, &one));
    assert_eq!(rt; split.count(), 512);
    assert_eq!(rt; first_spoiled(&split), spoiled_at(511, Fault::NoSuchStep));
    Ok(())
}

#[test]
fn margin_at_both_ends(rt: HostRuntime) -> Result<(), Fail> {
    let rows = [row(0, 1, 10, 20)];
    let source = Margin::new(Rows::new(2, &rows), 7);
    assert_eq!(rt; source.steps(), 2);
    assert_eq!(rt; source.count(), 1);
    let bound = source.item(0)??;
    assert_eq!(rt; bound.lower_end(), Some(17));
    assert_eq!(rt; bound.upper_end(), Some(13));
    Ok(())
}

#[test]
fn margin_out_of_reach(rt: HostRuntime) {
    let rows = [row(0, 1, 999_998, 1_000_000)];
    let reached = Margin::new(Rows::new(2, &rows), 2);
    assert_eq!(rt; first_spoiled(&reached), None);
    let source = Margin::new(Rows::new(2, &rows), 5);
    assert_eq!(rt; first_spoiled(&source), spoiled_at(0, Fault::OutOfReach));
    // Step 1 does not exist: the item stays spoiled as it was.
    let spoiled = Margin::new(Rows::new(1, &rows), 5);
    assert_eq!(rt; first_spoiled(&spoiled), spoiled_at(0, Fault::NoSuchStep));
}

#[test]
fn pile_of_three_layers(rt: HostRuntime) -> Result<(), Fail> {
    let first = [row(0, 1, 10, 90)];
    let second = [row(1, 2, 10, 90)];
    let own = Margin::new(Rows::new(3, &second), 4);
    let pile = Margin::new(Joined::new(Rows::new(3, &first), own), 3);
    assert_eq!(rt; pile.count(), 2);
    let bound = pile.item(0)??;
    assert_eq!(rt; bound.lower_end(), Some(13));
    assert_eq!(rt; bound.upper_end(), Some(87));
    let bound = pile.item(1)??;
    assert_eq!(rt; bound.lower_end(), Some(17));
    assert_eq!(rt; bound.upper_end(), Some(83));
    Ok(())
}

#[test]
fn pile_reaches_too_far(rt: HostRuntime) {
    let first = [row(0, 1, 10, 90)];
    let second = [row(0, 1, 999_995, 1_000_000)];
    assert_eq!(rt;
        first_spoiled_of_pair(Rows::new(2, &first), Rows::new(2, &second), 3, 2),
        None
    );
    assert_eq!(rt;
        first_spoiled_of_pair(Rows::new(2, &first), Rows::new(2, &second), 3, 3),
        spoiled_at(1, Fault::OutOfReach)
    );
    // The margin of its own does not touch the first source.
    assert_eq!(rt;
        first_spoiled_of_pair(Rows::new(2, &second), Rows::new(2, &first), 3, 3),
        None
    );
}

//! Tables of states, and carries by a table whose states never move.

use ffv1_range::{Fault, RangeEncoder, StateTable};

#[test]
fn floors(rt: HostRuntime) -> Result<(), Fault> {
    let table = StateTable::standard();
    let same = StateTable::with_deltas(&[0; 255])?;
    let lowest = [table.holds(7), table.holds(8)];
    let highest = [table.holds(248), table.holds(249)];
    let floors = (table.floor(), same.floor());
    assert!(rt; (floors, lowest, highest) == ((8, 8), [false, true], [true, false]));
    Ok(())
}

/// The fault of the table whose deltas are 0, except those of the states 1 and 128.
fn fault_of(first: i32, middle: i32) -> Option<Fault> {
    let mut deltas = [0; 255];
    deltas[0] = first;
    deltas[127] = middle;
    StateTable::with_deltas(&deltas).err()
}

#[test]
fn tables_are_refused(rt: HostRuntime) {
    let refused = [fault_of(0, 122), fault_of(0, 121), fault_of(i32::MIN, 0)];
    let all = [Some(Fault::StateTable); 3];
    assert!(rt; (refused, fault_of(i32::MAX, 0)) == (all, None));
}

/// Where the standard's table moves a state after a decision 1; 0 for one that it does not hold.
fn after_one(rt: &HostRuntime, table: &StateTable, state: u8) -> Result<u8, Fault> {
    if !table.holds(state) {
        return Ok(0);
    }
    let mut moved = state;
    RangeEncoder::new(rt.alloc()).put(table, &mut moved, true)?;
    Ok(moved)
}

/// The table of states that never move.
fn unmoved(rt: &HostRuntime) -> Result<StateTable, Fault> {
    let standard = StateTable::standard();
    let mut deltas = [0; 255];
    for k in 0..255u8 {
        deltas[usize::from(k)] = i32::from(k) + 1 - i32::from(after_one(rt, &standard, k + 1)?);
    }
    StateTable::with_deltas(&deltas)
}

/// So many pairs (128, 1), (254, 0) and then (128, 1) twice, by states that never move.
fn put_pairs(encoder: &mut RangeEncoder, table: &StateTable, pairs: usize) -> Result<(), Fault> {
    if table.floor() != 1 || !table.holds(128) || !table.holds(254) {
        return Err(Fault::StateTable);
    }
    for _ in 0..pairs {
        let (mut middle, mut high) = (128, 254);
        encoder.put(table, &mut middle, true)?;
        encoder.put(table, &mut high, false)?;
    }
    let mut middle = 128;
    encoder.put(table, &mut middle, true)?;
    let mut middle = 128;
    encoder.put(table, &mut middle, true)
}

/// Whether bytes are 80, so many zeros, and 3F 40.
fn are_carried(bytes: &[u8], zeros: usize) -> bool {
    match bytes {
        [0x80, middle @ .., 0x3f, 0x40] => middle == &[0; 1000][..zeros.min(1000)],
        _ => false,
    }
}

/// Whether so many pairs, by states that never move, have bytes of this form.
fn carries_to(
    rt: &HostRuntime,
    table: &StateTable,
    pairs: usize,
    zeros: usize,
) -> Result<bool, Fault> {
    let mut encoder = RangeEncoder::new(rt.alloc());
    put_pairs(&mut encoder, table, pairs)?;
    Ok(are_carried(&encoder.finish_full()?, zeros))
}

/// A carry goes through a byte, and through a thousand.
#[test]
fn carries(rt: HostRuntime) -> Result<(), Fault> {
    let table = unmoved(&rt)?;
    let none = carries_to(&rt, &table, 1, 0);
    let one = carries_to(&rt, &table, 2, 1);
    let many = carries_to(&rt, &table, 1001, 1000);
    assert!(rt; (none, one, many) == (Ok(true), Ok(true), Ok(true)));
    Ok(())
}

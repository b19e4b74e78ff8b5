// Lengths that are not as the kind and the counts say: 4.
use crate::written::*;
use std::test::Fail;

#[test]
fn the_head_has_four_bytes(rt: HostRuntime) -> Result<(), Fail> {
    let heap = rt.alloc();
    for damage in [
        at(1, b"01\n", 4, 1),
        at(1, b"0103\n", 4, 2),
        at(1, b"010300\n", 4, 3),
        at(1, b"0103000200\n", 4, 5),
    ] {
        damage.instead(&rt, heap)?;
    }
    Ok(())
}

#[test]
fn an_action_is_as_long_as_its_counts_say(rt: HostRuntime) -> Result<(), Fail> {
    let heap = rt.alloc();
    for k in 2..4u16 {
        for damage in [
            at(k, b"02\n", 4, 1),
            at(k, b"0200\n", 4, 2),
            at(k, b"020101\n", 4, 3),
            at(k, b"02010101\n", 4, 4),
            at(k, b"020101010001\n", 4, 6),
            at(k, b"0201010100010000\n", 4, 8),
            at(k, b"0200000000\n", 4, 5),
            at(k, b"02ffffff\n", 4, 4),
        ] {
            damage.instead(&rt, heap)?;
        }
    }
    Ok(())
}

#[test]
fn goal_and_start_are_as_long_as_their_counts_say(rt: HostRuntime) -> Result<(), Fail> {
    let heap = rt.alloc();
    for damage in [
        at(4, b"03\n", 4, 1),
        at(4, b"0301\n", 4, 2),
        at(4, b"03010201\n", 4, 4),
        at(4, b"030000\n", 4, 3),
        at(5, b"04\n", 4, 1),
        at(5, b"0402\n", 4, 2),
        at(5, b"040200\n", 4, 3),
        at(5, b"04010001\n", 4, 4),
    ] {
        damage.instead(&rt, heap)?;
    }
    Ok(())
}

#[test]
fn the_end_has_one_byte(rt: HostRuntime) -> Result<(), Fail> {
    let heap = rt.alloc();
    at(6, b"0500\n", 4, 2).instead(&rt, heap)?;
    at(6, b"050505\n", 4, 3).instead(&rt, heap)
}

// The kind is looked at first, and the length before any number.
#[test]
fn before_and_after(rt: HostRuntime) -> Result<(), Fail> {
    let heap = rt.alloc();
    for damage in [
        at(1, b"02\n", 3, 0),
        at(1, b"0100000000\n", 4, 5),
        at(2, b"02110000\n", 4, 4),
        at(4, b"030209\n", 4, 3),
    ] {
        damage.instead(&rt, heap)?;
    }
    Ok(())
}

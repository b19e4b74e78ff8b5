// Numbers out of bounds, 5, and lists that do not rise, 6.
use crate::written::*;
use std::test::Fail;

#[test]
fn the_head_has_facts_and_not_too_many_actions(rt: HostRuntime) -> Result<(), Fail> {
    let heap = rt.alloc();
    for damage in [
        at(1, b"01000002\n", 5, 1),
        at(1, b"01030201\n", 5, 2),
        at(1, b"0103ff00\n", 5, 2),
        at(1, b"0103ffff\n", 5, 2),
        at(1, b"0100ffff\n", 5, 1),
    ] {
        damage.instead(&rt, heap)?;
    }
    Ok(())
}

#[test]
fn a_fact_beyond_the_task_in_an_action(rt: HostRuntime) -> Result<(), Fail> {
    let heap = rt.alloc();
    for k in 2..4u16 {
        for damage in [
            at(k, b"02010101030100\n", 5, 4),
            at(k, b"02010101000300\n", 5, 5),
            at(k, b"02010101000103\n", 5, 6),
            at(k, b"02010101ff0103\n", 5, 4),
            at(k, b"020200000103\n", 5, 5),
        ] {
            damage.instead(&rt, heap)?;
        }
    }
    Ok(())
}

#[test]
fn a_fact_beyond_the_task_in_goal_and_start(rt: HostRuntime) -> Result<(), Fail> {
    let heap = rt.alloc();
    for damage in [
        at(4, b"030103\n", 5, 2),
        at(4, b"03020103\n", 5, 3),
        at(4, b"030300ff01\n", 5, 3),
        at(5, b"040103\n", 5, 2),
        at(5, b"0403000104\n", 5, 4),
    ] {
        damage.instead(&rt, heap)?;
    }
    Ok(())
}

#[test]
fn an_action_s_list_rises(rt: HostRuntime) -> Result<(), Fail> {
    let heap = rt.alloc();
    for k in 2..4u16 {
        for damage in [
            at(k, b"020200000101\n", 6, 5),
            at(k, b"020200000201\n", 6, 5),
            at(k, b"0203000000010 1\n", 1, 14),
            at(k, b"02030000000101\n", 6, 6),
            at(k, b"020002000100\n", 6, 5),
            at(k, b"020000020202\n", 6, 5),
            at(k, b"02010202000102 0\n", 1, 15),
            at(k, b"020102020001020100\n", 6, 8),
        ] {
            damage.instead(&rt, heap)?;
        }
    }
    Ok(())
}

#[test]
fn goal_and_start_rise(rt: HostRuntime) -> Result<(), Fail> {
    let heap = rt.alloc();
    for damage in [
        at(4, b"03020101\n", 6, 3),
        at(4, b"03020201\n", 6, 3),
        at(4, b"0303000101\n", 6, 4),
        at(5, b"04020100\n", 6, 3),
        at(5, b"0403000200\n", 6, 4),
    ] {
        damage.instead(&rt, heap)?;
    }
    Ok(())
}

// Every number is looked at before any order, and the first of several bytes is given.
#[test]
fn bounds_before_order(rt: HostRuntime) -> Result<(), Fail> {
    let heap = rt.alloc();
    for damage in [
        at(4, b"0303010003\n", 5, 4),
        at(5, b"0403010103\n", 5, 4),
        at(2, b"02020100010103\n", 5, 6),
        at(4, b"0303020100\n", 6, 3),
        at(4, b"0303030405\n", 5, 2),
    ] {
        damage.instead(&rt, heap)?;
    }
    Ok(())
}

// Frames that are not due: 3.
use crate::written::*;
use std::test::Fail;

#[test]
fn another_kind_than_the_one_due(rt: HostRuntime) -> Result<(), Fail> {
    let heap = rt.alloc();
    // A line of each kind, by its number.
    let kinds = [(1, HEAD), (2, FIRST), (4, GOAL), (5, START), (6, END)];
    for (due, _) in kinds {
        for (kind, given) in kinds {
            if kind != due {
                at(due, given, 3, 0).instead(&rt, heap)?;
            }
        }
    }
    Ok(())
}

#[test]
fn a_kind_that_is_none(rt: HostRuntime) -> Result<(), Fail> {
    let heap = rt.alloc();
    for k in 1..8u16 {
        for damage in [
            at(k, b"00\n", 3, 0),
            at(k, b"06\n", 3, 0),
            at(k, b"ff030002\n", 3, 0),
        ] {
            damage.instead(&rt, heap)?;
        }
    }
    Ok(())
}

// One action more or fewer than announced.
#[test]
fn actions_as_announced(rt: HostRuntime) -> Result<(), Fail> {
    let heap = rt.alloc();
    at(4, SECOND, 3, 0).instead(&rt, heap)?;
    at(3, GOAL, 3, 0).instead(&rt, heap)?;
    gives(&rt, heap, b"01030000\n02010101000100\n", Told::of(3, 2, 0))
}

#[test]
fn nothing_is_due_after_the_end(rt: HostRuntime) -> Result<(), Fail> {
    let heap = rt.alloc();
    for line in lines() {
        at(7, line, 3, 0).instead(&rt, heap)?;
    }
    Ok(())
}

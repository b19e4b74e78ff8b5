// Faults of a line's digits: 1, 2 and 7.
use crate::written::*;
use std::test::Fail;

#[test]
fn a_bad_digit_at_its_column(rt: HostRuntime) -> Result<(), Fail> {
    let heap = rt.alloc();
    for damage in [
        at(1, b"g1030002\n", 1, 1),
        at(1, b"0A030002\n", 1, 2),
        at(1, b"01/30002\n", 1, 3),
        at(1, b"010:0002\n", 1, 4),
        at(1, b"0103`002\n", 1, 5),
        at(1, b"01030 02\n", 1, 6),
        at(1, b"01030002\r\n", 1, 9),
        at(2, b"0201010100010x\n", 1, 14),
        at(3, b"02-10101010201\n", 1, 3),
        at(4, b"0301 2\n", 1, 5),
        at(5, b"\t40100\n", 1, 1),
        at(6, b"0G\n", 1, 2),
        at(7, b"z\n", 1, 1),
    ] {
        damage.instead(&rt, heap)?;
    }
    Ok(())
}

#[test]
fn an_odd_line_at_its_end(rt: HostRuntime) -> Result<(), Fail> {
    let heap = rt.alloc();
    for damage in [
        at(1, b"0\n", 1, 2),
        at(1, b"010300020\n", 1, 10),
        at(2, b"0201010100010\n", 1, 14),
        at(3, b"020101010102010\n", 1, 16),
        at(4, b"03010\n", 1, 6),
        at(5, b"04010\n", 1, 6),
        at(6, b"050\n", 1, 4),
        at(7, b"050\n", 1, 4),
    ] {
        damage.instead(&rt, heap)?;
    }
    Ok(())
}

#[test]
fn an_empty_line_at_column_one(rt: HostRuntime) -> Result<(), Fail> {
    let heap = rt.alloc();
    for k in 1..8u16 {
        at(k, b"\n", 1, 1).instead(&rt, heap)?;
    }
    Ok(())
}

#[test]
fn the_515th_digit(rt: HostRuntime) -> Result<(), Fail> {
    let heap = rt.alloc();
    let ended = run_of(heap, b'0', 515, b"\n")?;
    let longer = run_of(heap, b'f', 600, b"")?;
    for k in 1..8u16 {
        at(k, &ended, 2, 515).instead(&rt, heap)?;
        at(k, &longer, 2, 515).cut(&rt, heap)?;
    }
    Ok(())
}

// 514 digits pass the reading by column: the frame is looked at, or the text's end is missed.
#[test]
fn beside_the_515th_digit(rt: HostRuntime) -> Result<(), Fail> {
    let heap = rt.alloc();
    let most = run_of(heap, b'0', 514, b"\n")?;
    gives(&rt, heap, &most, Told::of(3, 1, 0))?;
    let unended = run_of(heap, b'0', 514, b"")?;
    gives(&rt, heap, &unended, Told::of(7, 1, 515))?;
    let odd = run_of(heap, b'0', 513, b"\n")?;
    gives(&rt, heap, &odd, Told::of(1, 1, 514))?;
    let bad = run_of(heap, b'0', 514, b"g\n")?;
    gives(&rt, heap, &bad, Told::of(1, 1, 515))?;
    let earlier = run_of(heap, b'0', 513, b"g0\n")?;
    gives(&rt, heap, &earlier, Told::of(1, 1, 514))
}

#[test]
fn the_text_ends_inside_a_line(rt: HostRuntime) -> Result<(), Fail> {
    let heap = rt.alloc();
    for damage in [
        at(1, b"0", 7, 2),
        at(1, b"0103", 7, 5),
        at(1, b"01030002", 7, 9),
        at(2, b"020", 7, 4),
        at(3, b"02010101010201", 7, 15),
        at(4, b"0", 7, 2),
        at(5, b"04010", 7, 6),
        at(6, b"05", 7, 3),
        at(7, b"0", 7, 2),
    ] {
        damage.cut(&rt, heap)?;
    }
    Ok(())
}

#[test]
fn the_text_ends_between_lines(rt: HostRuntime) -> Result<(), Fail> {
    let heap = rt.alloc();
    for k in 1..7u16 {
        at(k, b"", 7, 1).cut(&rt, heap)?;
    }
    Ok(())
}

// An unfinished line is read by column, and its frame is not looked at.
#[test]
fn an_unfinished_line(rt: HostRuntime) -> Result<(), Fail> {
    let heap = rt.alloc();
    for damage in [
        at(1, b"05", 7, 3),
        at(2, b"99", 7, 3),
        at(3, b"0x", 1, 2),
        at(6, b"0501z", 1, 5),
        at(7, b"05", 7, 3),
        at(7, b" ", 1, 1),
    ] {
        damage.cut(&rt, heap)?;
    }
    Ok(())
}

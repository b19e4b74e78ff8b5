// Texts at the limits.
use crate::written::*;
use std::test::Fail;
use tasktext::text::read_task;

// A frame of this kind that lists the facts below `count`.
fn add_list(text: &mut Vec<u8>, kind: u8, count: u8) -> Result<(), Fail> {
    add_byte(text, kind)?;
    add_byte(text, count)?;
    for f in 0..count {
        add_byte(text, f)?;
    }
    add(text, b"\n")
}

// An action with three lists of the first `count` facts.
fn add_action(text: &mut Vec<u8>, count: u8) -> Result<(), Fail> {
    add_byte(text, 2)?;
    for _ in 0..3u8 {
        add_byte(text, count)?;
    }
    for _ in 0..3u8 {
        for f in 0..count {
            add_byte(text, f)?;
        }
    }
    add(text, b"\n")
}

#[test]
fn the_small_task_is_read(rt: HostRuntime) -> Result<(), Fail> {
    let mut text = Vec::new(rt.alloc());
    for line in lines() {
        add(&mut text, line)?;
    }
    let task = read_task(rt.alloc(), &text)?;
    assert_eq!(rt; task.facts(), 3);
    assert_eq!(rt; task.action_count(), 2);
    assert_eq!(rt; task.goal(), [2u8].as_slice());
    assert_eq!(rt; task.start(), [0u8].as_slice());
    let Some(a) = task.action(1) else {
        return Err(Fail::new("action 1 is missing"));
    };
    assert_eq!(rt; a.preconditions(), [1u8].as_slice());
    assert_eq!(rt; a.adds(), [2u8].as_slice());
    assert_eq!(rt; a.deletes(), [1u8].as_slice());
    Ok(())
}

#[test]
fn the_smallest_text(rt: HostRuntime) -> Result<(), Fail> {
    let task = read_task(rt.alloc(), b"01010000\n0300\n0400\n05\n")?;
    assert_eq!(rt; task.facts(), 1);
    assert_eq!(rt; task.action_count(), 0);
    assert!(rt; task.goal().is_empty());
    assert!(rt; task.start().is_empty());
    Ok(())
}

// Order matters within a list only: the next list may begin lower.
#[test]
fn lists_may_begin_lower(rt: HostRuntime) -> Result<(), Fail> {
    let task = read_task(
        rt.alloc(),
        b"01030001\n02010101020100\n0300\n0403000102\n05\n",
    )?;
    assert_eq!(rt; task.action_count(), 1);
    assert_eq!(rt; task.start().len(), 3);
    Ok(())
}

#[test]
fn the_largest_task_is_read(rt: HostRuntime) -> Result<(), Fail> {
    let mut text = Vec::new(rt.alloc());
    add(&mut text, b"01ff0200\n")?;
    for _ in 0..512u16 {
        add_action(&mut text, 16)?;
    }
    add_list(&mut text, 3, 255)?;
    add_list(&mut text, 4, 255)?;
    add(&mut text, b"05\n")?;
    let task = read_task(rt.alloc(), &text)?;
    assert_eq!(rt; task.facts(), 255);
    assert_eq!(rt; task.action_count(), 512);
    assert_eq!(rt; task.goal().len(), 255);
    assert_eq!(rt; task.start().len(), 255);
    let Some(a) = task.action(511) else {
        return Err(Fail::new("the last action is missing"));
    };
    assert_eq!(rt; a.preconditions().len(), 16);
    assert_eq!(rt; a.adds().len(), 16);
    assert_eq!(rt; a.deletes().len(), 16);
    Ok(())
}

// The last line of the largest task is number 516; what comes after it is in line 517.
#[test]
fn the_last_line_numbers(rt: HostRuntime) -> Result<(), Fail> {
    let heap = rt.alloc();
    let mut text = Vec::new(heap);
    add(&mut text, b"01010200\n")?;
    for _ in 0..512u16 {
        add(&mut text, b"02000000\n")?;
    }
    add(&mut text, b"0300\n0400\n")?;
    gives(&rt, heap, &text, Told::of(7, 516, 1))?;
    add(&mut text, b"05\n")?;
    let task = read_task(heap, &text)?;
    assert_eq!(rt; task.action_count(), 512);
    add(&mut text, b"05\n")?;
    gives(&rt, heap, &text, Told::of(3, 517, 0))
}

#[test]
fn seventeen_in_a_list(rt: HostRuntime) -> Result<(), Fail> {
    let heap = rt.alloc();
    for place in 1..4u16 {
        let mut text = Vec::new(heap);
        add(&mut text, b"01ff0001\n02")?;
        for k in 1..4u16 {
            add_byte(&mut text, if k == place { 17 } else { 0 })?;
        }
        for f in 0..17u8 {
            add_byte(&mut text, f)?;
        }
        add(&mut text, b"\n")?;
        gives(&rt, heap, &text, Told::of(5, 2, place))?;
    }
    Ok(())
}

// A goal of 255 facts takes 514 digits, the most that a line may have.
#[test]
fn the_longest_line(rt: HostRuntime) -> Result<(), Fail> {
    let heap = rt.alloc();
    let mut text = Vec::new(heap);
    add(&mut text, b"01ff0000\n")?;
    add_list(&mut text, 3, 255)?;
    assert_eq!(rt; text.len(), 9 + 514 + 1);
    add(&mut text, b"0400\n05\n")?;
    let task = read_task(heap, &text)?;
    assert_eq!(rt; task.goal().len(), 255);
    Ok(())
}

// The last fact of 255 is 254: 255 is out of bounds.
#[test]
fn the_last_fact(rt: HostRuntime) -> Result<(), Fail> {
    let heap = rt.alloc();
    gives(&rt, heap, b"01ff0000\n0301ff\n", Told::of(5, 2, 2))?;
    gives(&rt, heap, b"01fe0000\n0301fe\n", Told::of(5, 2, 2))?;
    let task = read_task(heap, b"01ff0000\n0301fe\n0400\n05\n")?;
    assert_eq!(rt; task.goal(), [254u8].as_slice());
    Ok(())
}

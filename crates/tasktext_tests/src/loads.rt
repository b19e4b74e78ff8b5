// Loads: lines handed one by one, refused and mended; faults by layer.
use crate::written::*;
use hexline::line::Reader;
use std::test::Fail;
use tasktext::load::Load;
use textfault::fault::{FrameFault, LineFault, LoadFault};

// Hands one line to the load, and keeps the load whatever comes of it.
fn hand(load: &mut Load, text: &[u8]) -> Option<LoadFault> {
    let mut reader = Reader::new(text);
    load.take_line(&mut reader).err()
}

#[test]
fn a_refused_line_leaves_the_load(rt: HostRuntime) -> Result<(), Fail> {
    let mut load = Load::begin(rt.alloc())?;
    let first = hand(&mut load, b"01030003x\n");
    let taken = hand(&mut load, b"01030002\n");
    let again = hand(&mut load, b"01030002\n");
    let short = hand(&mut load, b"0201010100\n");
    let wrong = hand(&mut load, b"02010101000109\n");
    let mended = hand(&mut load, b"02010101000100\n");
    let count = load.abandon();
    assert_eq!(rt; first.map(Told::from), Some(Told::of(1, 1, 9)));
    assert!(rt; taken.is_none());
    assert_eq!(rt; again.map(Told::from), Some(Told::of(3, 2, 0)));
    assert_eq!(rt; short.map(Told::from), Some(Told::of(4, 2, 5)));
    assert_eq!(rt; wrong.map(Told::from), Some(Told::of(5, 2, 6)));
    assert!(rt; mended.is_none());
    assert_eq!(rt; count, 2);
    Ok(())
}

#[test]
fn closing_early_leaves_the_load_open(rt: HostRuntime) -> Result<(), Fail> {
    let mut load = Load::begin(rt.alloc())?;
    let head = hand(&mut load, b"01010000\n");
    match load.close() {
        Ok(_) => Err(Fail::new("a load was closed without its end frame")),
        Err((mut open, fault)) => {
            let goal = hand(&mut open, b"0300\n");
            let start = hand(&mut open, b"0400\n");
            let end = hand(&mut open, b"05\n");
            let count = open.accepted();
            match open.close() {
                Ok(task) => {
                    assert!(rt;
                        head.is_none() && goal.is_none() && start.is_none() && end.is_none()
                    );
                    assert!(rt; matches!(fault, LoadFault::Early(_)));
                    assert_eq!(rt; Told::from(fault), Told::of(7, 2, 1));
                    assert_eq!(rt; count, 4);
                    assert_eq!(rt; task.facts(), 1);
                    Ok(())
                }
                Err((left, _)) => {
                    left.abandon();
                    Err(Fail::new("a load with its end frame was not closed"))
                }
            }
        }
    }
}

// The fault names the layer that found it.
#[test]
fn faults_keep_their_layer(rt: HostRuntime) -> Result<(), Fail> {
    let mut load = Load::begin(rt.alloc())?;
    let digit = hand(&mut load, b"0\n");
    let early = hand(&mut load, b"");
    let not_due = hand(&mut load, b"05\n");
    let length = hand(&mut load, b"01\n");
    let bounds = hand(&mut load, b"01000000\n");
    let head = hand(&mut load, b"01020000\n");
    let rising = hand(&mut load, b"03020100\n");
    load.abandon();
    assert!(rt;
        matches!(
            digit,
            Some(LoadFault::Frame(FrameFault::Line(LineFault::Digit(_))))
        )
    );
    assert!(rt;
        matches!(
            early,
            Some(LoadFault::Frame(FrameFault::Line(LineFault::Early(_))))
        )
    );
    assert!(rt; matches!(not_due, Some(LoadFault::Frame(FrameFault::NotDue(_)))));
    assert!(rt; matches!(length, Some(LoadFault::Frame(FrameFault::Length(_)))));
    assert!(rt; matches!(bounds, Some(LoadFault::Frame(FrameFault::Bounds(_)))));
    assert!(rt; head.is_none());
    assert!(rt; matches!(rising, Some(LoadFault::Frame(FrameFault::Rising(_)))));
    Ok(())
}

// A reader goes on from line to line, and stays at a refused one.
#[test]
fn a_reader_stays_at_a_refused_line(rt: HostRuntime) -> Result<(), Fail> {
    let mut load = Load::begin(rt.alloc())?;
    let mut reader = Reader::new(b"01010000\n0400\n");
    let first = load.take_line(&mut reader);
    let second = load.take_line(&mut reader);
    let mended = hand(&mut load, b"0300\n");
    let third = load.take_line(&mut reader);
    let ended = reader.at_end();
    load.abandon();
    assert!(rt; first.is_ok());
    assert!(rt; second.is_err());
    assert!(rt; mended.is_none());
    assert!(rt; third.is_ok());
    assert!(rt; ended);
    Ok(())
}

// Faults in words.
use crate::written::run_of;
use std::test::Fail;
use tasktext::text::read_task;
use textfault::fault::ReadFault;

#[test]
fn each_fault_in_words(rt: HostRuntime) -> Result<(), Fail> {
    let heap = rt.alloc();
    let longest = run_of(heap, b'0', 515, b"")?;
    let told: [(&[u8], &str); 8] = [
        (
            b"0\n",
            "text refused 1: line 1, column 2: here stands no digit of 0-9a-f, or the line ends empty or odd",
        ),
        (
            &longest,
            "text refused 2: line 1, column 515: the line has more than 514 digits",
        ),
        (
            b"01010000\n05\n",
            "text refused 3: line 2, byte 0: this kind of frame is not due",
        ),
        (
            b"010000\n",
            "text refused 4: line 1, bytes 3: the line is not as long as its kind and its counts say",
        ),
        (
            b"01000000\n",
            "text refused 5: line 1, byte 1: this number is out of bounds",
        ),
        (
            b"01020000\n03020100\n",
            "text refused 6: line 2, byte 3: this fact is not above the one before it in its list",
        ),
        (
            b"01",
            "text refused 7: line 1, column 3: the text ends inside this line",
        ),
        (
            b"01010000\n",
            "text refused 7: line 2, column 1: the text ends before the end frame",
        ),
    ];
    for (text, words) in told {
        let Err(fault) = read_task(heap, text) else {
            return Err(Fail::new("a damaged text was accepted"));
        };
        assert_eq!(rt; format!(in heap; "{fault}")?.as_str(), words);
    }
    let memory = ReadFault::Memory;
    assert_eq!(rt;
        format!(in heap; "{memory}")?.as_str(),
        "no memory for a task"
    );
    Ok(())
}

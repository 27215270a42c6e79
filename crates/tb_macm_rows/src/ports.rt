//! Reading and writing, where each call goes well and where some fail.

use super::runs::first_wrong;
use std::test::Fail;

#[test]
fn input_and_output(rt: HostRuntime) -> Result<(), Fail> {
    let rows = &[
        "op0 1 read-char; op0 2 read-char; op0 3 read-char; end -> end, r 1 char 98, r 3 eof, events took 98 took-end took-end, faults 0",
        "op0 1 peek-char; op0 2 peek-char; op0 3 read-char; op0 4 read-char; end -> end, r 2 char 98, r 3 char 98, r 4 eof, events took 98 took-end",
        "op0 1 read-char; op0 2 peek-char; op0 3 peek-char; op0 4 read-char; op0 5 peek-char; end -> end, r 3 eof, r 4 eof, r 5 eof, events took 98 took-end",
        "set 1 char 97; op1 2 1 write-char; set 1 char 255; op1 1 1 write-char; end -> end, r 1 unspecified, events put 97 put 255",
        "op0 1 read-char; op1 2 1 write-char; op0 1 read-char; op1 2 1 write-char; end -> fail wrong-type 3, events took 98 put 98 took-end",
        "set 1 char 97; op1 2 1 write-char; jump 1 -> steps, at 1, faults 967",
    ];
    assert_eq!(rt; first_wrong(rt.alloc(), "", rows, &[])?, None);
    Ok(())
}

#[test]
fn faults_change_nothing(rt: HostRuntime) -> Result<(), Fail> {
    // The first and the third call of the source fail, and those of the sink.
    let rows = &[
        "op0 1 read-char; op0 2 read-char; op0 3 read-char; end -> end, r 1 char 98, r 3 eof, events took 98 took-end took-end, faults 2",
        "op0 1 peek-char; op0 2 peek-char; op0 3 read-char; op0 4 read-char; end -> end, r 2 char 98, r 3 char 98, r 4 eof, events took 98 took-end, faults 2",
        "op0 1 read-char; op0 2 peek-char; op0 3 read-char; end -> end, r 1 char 98, r 3 eof, events took 98 took-end, faults 2",
        "set 1 char 97; op1 2 1 write-char; op1 3 1 write-char; end -> end, r 2 unspecified, r 3 unspecified, events put 97 put 97, faults 2",
        "op0 1 read-char; op1 2 1 write-char; end -> end, r 1 char 98, events took 98 put 98, faults 2",
        "op0 1 read-char; op1 2 0 write-char; end -> fail wrong-type 1, r 1 char 98, faults 1",
        "set 1 char 97; op1 2 1 write-char; jump 1 -> steps, at 1, faults 967",
    ];
    assert_eq!(rt; first_wrong(rt.alloc(), "", rows, &[0, 2])?, None);
    Ok(())
}

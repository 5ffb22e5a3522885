use super::{Call, gives, print, seq};
use std::alloc::Global;

const SOURCE: &[u8] = b"real_main(){out(\"x\");in(\"x\");}";

const TEXT: &[u8] = b"process 0 ended (0) acts 2\nstatus 0 processes 1 acts 2\n";

// Whether a call whose read of this number fails, a byte a read, tells that and writes nothing.
fn read_fails(alloc: Global, number: u64) -> bool {
    let failing = [number];
    let call = Call {
        read_piece: 1,
        failing_read: &failing,
        ..seq(SOURCE)
    };
    gives(alloc, &call, b"", 4)
}

// Whether a call whose write of this number fails, five bytes a write, tells that and has written the bytes before.
fn write_fails(alloc: Global, number: u8) -> bool {
    let failing = [u64::from(number)];
    let call = Call {
        write_piece: 5,
        failing_write: &failing,
        ..seq(SOURCE)
    };
    let written = 5 * usize::from(number.saturating_sub(1));
    gives(alloc, &call, &TEXT[..written.min(TEXT.len())], 5)
}

// A read for each byte, and the one that finds the end.
#[test]
fn each_read_fails_in_turn(rt: HostRuntime) {
    for number in 1..32 {
        assert!(rt; read_fails(rt.alloc(), number));
    }
}

#[test]
fn a_read_behind_the_end_is_not_made(rt: HostRuntime) {
    let call = Call {
        read_piece: 1,
        failing_read: &[33],
        ..seq(SOURCE)
    };
    assert!(rt; gives(rt.alloc(), &call, TEXT, 0));
}

#[test]
fn each_write_fails_in_turn(rt: HostRuntime) {
    for number in 1..12 {
        assert!(rt; write_fails(rt.alloc(), number));
    }
}

// Whether a fault of reading is told in place of a refusal or of a text, and a fault of writing too.
fn faults_of_print(alloc: Global, source: &[u8], front: &[u8]) -> bool {
    let reads = Call {
        read_piece: 4,
        failing_read: &[3],
        ..print(source)
    };
    let writes = Call {
        write_piece: 4,
        failing_write: &[3],
        ..print(source)
    };
    gives(alloc, &reads, b"", 4) && gives(alloc, &writes, front, 5)
}

// No status but 4 comes where a read fails, and no status but 5 where a write does.
#[test]
fn faults_of_print_are_told(rt: HostRuntime) {
    assert!(rt; faults_of_print(rt.alloc(), b"real_main(){f();}", b"int real"));
    assert!(rt; faults_of_print(rt.alloc(), b"real_main(){@}", b"refused "));
}

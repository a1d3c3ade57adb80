//! The command with the words `gen N` and `gen N W`.

use crate::runs::{Hindrance, check, unhindered};

// The even numbers below 4,096 and 2,048 sevens are 4,206,592; 64 times 22,352 are 1,430,528.
const LARGE: &[u8] = b"tasks 4096 completed 4096 cancelled 0 error 0 refused 0 sum 5637120\n";

#[test]
fn summaries(rt: HostRuntime) {
    // Nothing is read.
    let how = Hindrance {
        read_fails: 1,
        ..unhindered()
    };
    check(&rt, rt.alloc(), &["gen", "4096"], b"", &how, 0, LARGE, b"");
    for workers in ["1", "2", "4", "16"] {
        let words = ["gen", "4096", workers];
        check(&rt, rt.alloc(), &words, b"", &how, 0, LARGE, b"");
    }
}

// 7, 1 and 9.
const SMALL: &[u8] = b"tasks 3 completed 3 cancelled 0 error 0 refused 0 sum 17\n";

/// Where the words don't say, there are 4 workers, each in a thread that is started: the fifth start is none.
#[test]
fn workers_absent(rt: HostRuntime) {
    let fourth = Hindrance {
        thread_fails: 4,
        ..unhindered()
    };
    let refused = b"mtapi: thread refused\n";
    check(
        &rt,
        rt.alloc(),
        &["gen", "3"],
        b"",
        &fourth,
        7,
        b"",
        refused,
    );
    let fifth = Hindrance {
        thread_fails: 5,
        ..unhindered()
    };
    check(&rt, rt.alloc(), &["gen", "3"], b"", &fifth, 0, SMALL, b"");
}

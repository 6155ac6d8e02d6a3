// For each line of the input its shortest text, or `! `, the refusal's number, a blank and its place.
// Its exit status is the same in each case, so that a fault is told on standard error.
#![tactic(auto)]

use std::io::Write;

fn main(rt: HostRuntime) {
    if !line_program::run(&mut rt.stdin(), &mut rt.stdout()) {
        let _ = rt
            .stderr()
            .write_all(b"saltwhistle: a read or a write failed\n");
    }
}

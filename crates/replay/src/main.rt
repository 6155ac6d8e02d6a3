// Reads the fixed list of texts: oracle/replay.sh makes its stdin and stdout from the texts and the Rust's answers, and from document 01's where the Rust panics.
#![tactic(auto)]

fn main(rt: HostRuntime) {
    compare_lines::run(&mut rt.stdin(), &mut rt.stdout(), false);
}

// For each line of the input its record and, behind a TAB each, its shortest text, its text without the reference and its width; or `! `, the refusal's number, a blank and its place.
#![tactic(auto)]

fn main(rt: HostRuntime) {
    compare_lines::run(&mut rt.stdin(), &mut rt.stdout(), true);
}

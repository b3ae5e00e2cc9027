// Stored cases of the program `forecast`, from the file stdin: document 01's examples, runs, refusals in the order
// of their questions, and the longest input with each length around its end. stdout holds what the model answers;
// model/cases.py made both.
#![tactic(auto)]

mod files;
mod lines;

fn main(rt: HostRuntime) -> std::io::Result<()> {
    let mut text = io::large_buffer();
    let n = io::read_full(0, &mut text);
    lines::lines(&rt, &text[..n])
}

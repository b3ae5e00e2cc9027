// Every call on the lines of the file stdin: those on the store and on values alone, then those that evaluate, then stops
// as they are kept and as they are drawn from the preview, side by side; stdout holds what the model answers.
// model/cases.py made both.
#![tactic(auto)]

fn main() {
    session::session();
}

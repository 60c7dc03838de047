// Reads a log from standard input and prints what it is answered.
#![tactic(auto)]

fn main() {
    // one byte more than is read of a log, so that a longer one shows
    let mut input = [0u8; 65537];
    let n = io::read_full(0, &mut input);
    report::print_input(&input[..n]);
}

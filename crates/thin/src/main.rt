// Reads a board file from standard input, runs the automatic run on it, and prints the board, its arcs and the counts, or the refusal.
#![tactic(auto)]

fn main() {
    // No more than these bytes are read; a failed read counts as the end.
    let mut input = io::large_buffer();
    let got = io::read_full(0, &mut input);
    let mut out = [0; text::PAGE];
    let length = text::thin_text(&input[..got], &mut out);
    io::write_all(1, &out[..length]);
}

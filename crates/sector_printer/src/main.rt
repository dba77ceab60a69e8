// Reads 100 cost bytes and a step from standard input, and prints the flow bytes, or `no` and the number of the refusal.
// There is no previous field, so that a step with a window is refused: with 17, where no earlier number is due.
// An input longer than 108 bytes is refused whatever follows, so 109 bytes decide what is printed.
// Where standard output takes less than that, standard error says so; the exit status stays 0.
#![tactic(auto)]

fn main() {
    let mut input = [0u8; 109];
    let count = io::read_full(0, &mut input);
    let mut out = [0u8; 210];
    let length = sector_text::report(&input[..count], &mut out);
    if !io::write_all(1, &out[..length]) {
        io::write_all(2, b"sector_printer: standard output cannot be written\n");
    }
}

// Reads a seed of four bytes, low byte first, from standard input, and prints its practice floor, or `no`.
// An input longer than four bytes prints `no` whatever follows, so five bytes decide what is printed.
// Where standard output takes less than that, standard error says so; the exit status stays 0.
#![tactic(auto)]

fn main() {
    let mut input = [0u8; 5];
    let count = io::read_full(0, &mut input);
    let mut out = [0u8; 213];
    let length = practice_text::report(&input[..count], &mut out);
    if !io::write_all(1, &out[..length]) {
        io::write_all(2, b"practice_printer: standard output cannot be written\n");
    }
}

// What the practice printer prints, worked out in memory. Without a heap there is no `String`: the text goes into a lent buffer, and a number
// says how many bytes it is, which the two programs that call it take as it is.
#![tactic(auto)]

ghost use Rattle.std.specs.Prelude.{◌≡◌, ◌≤◌, length};
ghost use Rattle.std.proofs.lemmas.List.Edits.{sets};
ghost use Rattle.practice_text.specs.Text.{floor_text, no_line, practice_text};

use practice::PracticeFloor;

// The line `no`, and how many bytes it is.
#[tactic(auto, unfolding(crate::specs::Text::no_line))]
fn put_no_line(out: &mut [u8; 213]) -> usize
    ensures { (result ≡ 3) × (result ≡ length no_line) × (out.new ≡ sets out.old 0 no_line) }
{
    out[..3].copy_from_slice(b"no\n");
    3
}

// The lines of a floor, and how many bytes they are.
fn put_floor(out: &mut [u8; 213], floor: PracticeFloor) -> usize
    ensures { (result ≤ 213) × (result ≡ length (floor_text floor)) × (out.new ≡ sets out.old 0 (floor_text floor)) }
{
    print_text::put_rows(out, &floor.costs);
    let end = 210 + print_text::put_decimal(out, 210, floor.goal);
    out[end] = b'\n';
    end + 1
}

// What is printed for an input, at the start of `out`, and how many bytes it is.
#[tactic(auto, using(crate::proofs::Laws::seed_by), unfolding(crate::specs::Text::practice_text))]
pub fn report(input: &[u8], out: &mut [u8; 213]) -> usize
    ensures count { (result ≤ 213) × (result ≡ length (practice_text input.now)) }
    ensures text { out.new ≡ sets out.old 0 (practice_text input.now) }
{
    let Ok(seed) = <[u8; 4]>::try_from(input) else {
        return put_no_line(out);
    };
    let floor = practice::practice_floor(u32::from_le_bytes(seed));
    put_floor(out, floor)
}

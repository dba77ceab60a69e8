// What the sector printer prints, worked out in memory. Without a heap there is no `String`: the text goes into a lent buffer, and a number says
// how many bytes it is, which the program that calls it takes as it is.
#![tactic(auto)]

ghost use Rattle.std.specs.Prelude.{◌≡◌, ◌≤◌, length};
ghost use Rattle.std.proofs.lemmas.List.Edits.{sets};
ghost use Rattle.sector_text.specs.Text.{no_text, rendered, printed};

use refusals::Refusal;

// The line of a refusal, and how many bytes it is.
fn put_no(out: &mut [u8; 210], number: u8) -> usize
    ensures { (result ≤ 210) × (result ≡ length (no_text number)) × (out.new ≡ sets out.old 0 (no_text number)) }
{
    out[..3].copy_from_slice(b"no ");
    let end = 3 + print_text::put_decimal(out, 3, number);
    out[end] = b'\n';
    end + 1
}

// The text of an answer at the start of `out`, and how many bytes it is.
#[tactic(auto, using(print_text::proofs::Laws::rows_length), unfolding(crate::specs::Text::rendered))]
fn render(number: u8, sheet: &[u8; 100], out: &mut [u8; 210]) -> usize
    ensures count { (result ≤ 210) × (result ≡ length (rendered number sheet.now)) }
    ensures text { out.new ≡ sets out.old 0 (rendered number sheet.now) }
{
    if number != 0 {
        return put_no(out, number);
    }
    print_text::put_rows(out, sheet);
    210
}

// What is printed for an input, at the start of `out`, and how many bytes it is.
pub fn report(input: &[u8], out: &mut [u8; 210]) -> usize
    ensures count { (result ≤ 210) × (result ≡ length (printed input.now)) }
    ensures text { out.new ≡ sets out.old 0 (printed input.now) }
{
    if input.len() < 100 {
        return put_no(out, Refusal::CostBytes.number());
    }
    let (costs, step) = input.split_at(100);
    let mut sheet = [0u8; 100];
    let answer = sector::plan_sector(costs, step, None, &mut sheet);
    render(answer.number, &sheet, out)
}

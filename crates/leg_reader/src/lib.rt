// Reads a file of steps: its number, and the part of it that holds the steps.
#![tactic(auto)]

ghost use Rattle.std.specs.Prelude.{◌≡◌, ◌≤◌, length, take, drop};
ghost use Rattle.refusals.specs.Refusal.{told};
ghost use Rattle.leg_file.specs.File.{is_marked, version_of, file_number, file_steps, file_answer};
ghost use Rattle.leg_file.specs.Promise.{WrittenSame, PartOf, FileRefused};

use leg_file::LegFile;
use refusals::Refusal;

// Whether the file begins with `LEG`.
#[tactic(auto, unfolding(leg_file::specs::File::is_marked))]
fn is_marked(file: &[u8]) -> bool
    requires { 6 ≤ length file.now }
    ensures { result ≡ is_marked file.now }
{
    file.starts_with(b"LEG")
}

// The version, low byte first.
fn version(file: &[u8]) -> u16
    requires { 6 ≤ length file.now }
    ensures { result ≡ version_of file.now }
{
    u16::from_le_bytes([file[3], file[4]])
}

// Refused with 14 where the file's mark, version, count or length is wrong.
#[tactic(auto, unfolding(leg_file::specs::File::file_number, leg_file::specs::File::is_leg_file))]
pub fn number(file: &[u8]) -> Result<(), Refusal>
    ensures { told result ≡ file_number file.now }
{
    if file.len() < 6 || !is_marked(file) || version(file) != 1 {
        return Err(Refusal::LegFile);
    }
    let count = usize::from(file[5]);
    if count == 0 || 16 < count || file.len() != 6 + 8 * count {
        return Err(Refusal::LegFile);
    }
    Ok(())
}

// The part of a file that holds the steps; an empty part where the file is refused.
pub fn read(file: &[u8]) -> &[u8]
    ensures part { result.now ≡ file_steps file.now }
    ensures number { PartOf file.now result.now }
    ensures same { WrittenSame file.now result.now }
{
    match number(file) {
        Ok(()) => &file[6..],
        Err(_) => &file[..0],
    }
}

// The number of a file, and the place of the part that holds the steps.
pub fn locate(file: &[u8]) -> LegFile
    ensures answer { result ≡ file_answer file.now }
    ensures part { take result.length (drop result.start file.now) ≡ file_steps file.now }
    ensures same { WrittenSame file.now (take result.length (drop result.start file.now)) }
    ensures refused { (result.number ≡ 0 → ⊥) → FileRefused result }
{
    let length = read(file).len();
    match number(file) {
        Ok(()) => LegFile {
            number: 0,
            start: 6,
            length,
        },
        Err(refusal) => LegFile {
            number: refusal.number(),
            start: 0,
            length,
        },
    }
}

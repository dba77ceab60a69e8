// Writes a list of steps as a file.
#![tactic(auto)]

ghost use Rattle.std.specs.Prelude.{◌≡◌, List, [], ◌∷◌, ◌++◌, ℕ, ◌+◌, ◌≤◌, length, take};
ghost use Rattle.std.proofs.lemmas.List.Edits.{sets};
ghost use Rattle.refusals.specs.Refusal.{told};
ghost use Rattle.leg_file.specs.File.{write_number, written_file};
ghost use Rattle.leg_file.specs.Promise.{ReadBack};

use refusals::Refusal;

// The writer's number for a buffer of so many bytes.
#[tactic(auto, unfolding(leg_file::specs::File::write_number))]
fn write_number(steps: &[u8], file_length: usize) -> Result<(), Refusal>
    ensures { (file : List ℕ) → length file ≡ file_length → told result ≡ write_number steps.now file }
{
    if step_list::is_no_step_list(steps) {
        return Err(Refusal::StepList);
    }
    if file_length != 6 + steps.len() {
        return Err(Refusal::Sheet);
    }
    Ok(())
}

// The six bytes before the steps.
fn put_head(file: &mut [u8], count: u8)
    requires { 6 ≤ length file.old }
    ensures { file.new ≡ sets file.old 0 (76 ∷ 69 ∷ 71 ∷ 1 ∷ 0 ∷ count ∷ []) }
{
    file[..5].copy_from_slice(b"LEG\x01\x00");
    file[5] = count;
}

// The steps, byte by byte behind the head. By `copy_from_slice` the archive would ask its linker for memmove, beside memcpy and memset.
fn put_steps(steps: &[u8], file: &mut [u8])
    requires { length file.old ≡ 6 + length steps.now }
    ensures { file.new ≡ take 6 file.old ++ steps.now }
{
    for i in 0..steps.len() {
        file[6 + i] = steps[i];
    }
}

// Writes the file of a list of steps to a buffer exactly as long, or is refused with number 3 or 2.
pub fn write(steps: &[u8], file: &mut [u8]) -> Result<(), Refusal>
    ensures number { told result ≡ write_number steps.now file.old }
    ensures file { file.new ≡ written_file steps.now file.old }
    ensures back { ReadBack steps.now file.old file.new (told result) }
{
    write_number(steps, file.len())?;
    let count = steps.len() / route::STEP_LENGTH;
    put_head(file, count as u8);
    put_steps(steps, file);
    Ok(())
}

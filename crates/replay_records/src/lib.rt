// The bytes of a record: parts, numbers and fields read from them, and a field compared with them.
#![tactic(auto)]

ghost use Rattle.std.specs.Prelude.{◌-◌, ◌≤◌, ◌<◌, ◌≡◌, true, length, get_or};
ghost use Rattle.replay_records.specs.Same.{word_at, SameField};

use integration_field::IntegrationField;

// The bytes from one place up to another; no bytes where there are not so many.
pub fn part(bytes: &[u8], from: usize, to: usize) -> &[u8]
    ensures { length result.now ≤ to - from }
{
    bytes.get(from..to).unwrap_or(&[])
}

// The first bytes, lent to be written; no bytes where there are not so many.
pub fn front(bytes: &mut [u8], length: usize) -> &mut [u8] {
    if length <= bytes.len() {
        return &mut bytes[0..length];
    }
    &mut bytes[0..0]
}

// The byte at a place, 0 past the end.
pub fn byte_at(bytes: &[u8], at: usize) -> u8
    ensures { result ≡ get_or bytes.now at 0 }
{
    bytes.get(at).copied().unwrap_or(0)
}

// The byte at a place as a count, a coordinate or a corner; 0 where there is none.
pub fn usize_at(bytes: &[u8], at: usize) -> usize
    ensures { (result ≡ get_or bytes.now at 0) × (result < 256) }
{
    usize::from(byte_at(bytes, at))
}

// The number of 16 bits whose low and high byte stand at these places.
pub fn short_at(bytes: &[u8], low: usize, high: usize) -> usize
    ensures { result < 65536 }
{
    usize_at(bytes, low) + 256 * usize_at(bytes, high)
}

// The number of 32 bits at a place, its lowest byte first.
pub fn word_at(bytes: &[u8], at: usize) -> u32
    requires { at < 1000 }
    ensures { result ≡ word_at bytes.now at }
{
    let first = u32::from(byte_at(bytes, at));
    let second = u32::from(byte_at(bytes, at + 1));
    let third = u32::from(byte_at(bytes, at + 2));
    let fourth = u32::from(byte_at(bytes, at + 3));
    first + 256 * second + 65536 * third + 16777216 * fourth
}

// Whether numbers, a hundred at most, are those that stand one after the other in 32 bits each.
pub fn same_words(words: &[u32], bytes: &[u8]) -> bool {
    if 100 < words.len() {
        return false;
    }
    for i in 0..words.len() {
        if words[i] != word_at(bytes, 4 * i) {
            return false;
        }
    }
    true
}

// A sum of bytes that the change of any one of them changes: 257 and the modulus, a prime, share no factor.
pub fn summed(before: u64, bytes: &[u8]) -> u64 {
    let mut sum = before % 4294967291;
    for byte in bytes {
        sum = (sum * 257 + u64::from(*byte)) % 4294967291;
    }
    sum
}

// The field that stands as cells, count, positions and corners, 0 past the end.
pub fn field_of(bytes: &[u8]) -> IntegrationField
    ensures { length result.field ≡ 100 }
{
    let mut field = [0u32; 100];
    let mut positions = [0u8; 100];
    let mut los_corners = [0usize; 100];
    for i in 0..100 {
        field[i] = word_at(bytes, 4 * i);
        positions[i] = byte_at(bytes, 401 + i);
        los_corners[i] = usize_at(bytes, 501 + i);
    }
    IntegrationField {
        field,
        los_corners,
        count: usize_at(bytes, 400),
        positions,
    }
}

// Whether a field is the one that stands as count, positions, corners and cells.
pub fn same_field(field: IntegrationField, bytes: &[u8]) -> bool
    ensures { result ≡ true → SameField field bytes.now }
{
    if field.count != usize_at(bytes, 0) {
        return false;
    }
    for i in 0..100 {
        if field.positions[i] != byte_at(bytes, 1 + i)
            || field.los_corners[i] != usize_at(bytes, 101 + i)
            || field.field[i] != word_at(bytes, 201 + 4 * i)
        {
            return false;
        }
    }
    true
}

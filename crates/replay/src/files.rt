// The records of a leg's files.
use replay_records::{byte_at, front, part, usize_at};

// A record: lengths of list and buffer, the byte that fills the buffer; number; 150 bytes of list; 160 of the buffer.
pub fn write_agrees(record: &[u8]) -> bool {
    let length = usize_at(record, 0);
    let room = usize_at(record, 1);
    if length > 150 || room > 160 {
        return false;
    }
    let mut file = [byte_at(record, 2); 160];
    let written = leg_writer::write(part(record, 4, 4 + length), front(&mut file, room));
    refusals::number(written) == byte_at(record, 3)
        && part(&file, 0, room) == part(record, 154, 154 + room)
}

// A record: length of the file; number, start and length of the part; 150 bytes of file.
pub fn read_agrees(record: &[u8]) -> bool {
    let length = usize_at(record, 0);
    if length > 150 {
        return false;
    }
    let found = leg_reader::locate(part(record, 4, 4 + length));
    found.number == byte_at(record, 1)
        && found.start == usize_at(record, 2)
        && found.length == usize_at(record, 3)
}

// Decks made by rule. tests/decks.py has the same rules.
ghost use Rattle.std.specs.Prelude.{◌≤◌};

// One label, at line 0, and NOP lines, but this record for the last line: five bytes, and three for each line.
pub(crate) fn nop_deck<const N: usize>(lines: u16, last: [u8; 3]) -> [u8; N]
    requires { 8 ≤ N }
{
    let mut deck = [0; N];
    let (head, records) = deck.split_first_chunk_mut().unwrap();
    let [low, high] = lines.to_le_bytes();
    *head = [1, 0, 0, low, high];
    let (records, _) = records.as_chunks_mut();
    records.fill([27, 0, 0]);
    *records.last_mut().unwrap() = last;
    deck
}

// Four labels and 64 lines, in which all operations come up.
pub(crate) fn mixed_deck(number: u8) -> [u8; 203] {
    let mut deck = [0; 203];
    let (head, records) = deck.split_first_chunk_mut().unwrap();
    let label = |label: u16| ((label * 13 + number as u16 * 7 + 5) % 64) as u8;
    *head = [4, label(0), 0, label(1), 0, label(2), 0, label(3), 0, 64, 0];
    let (records, _) = records.as_chunks_mut();
    for (line, record) in (0..64).zip(records) {
        *record = mixed_record(line, number);
    }
    deck
}

fn mixed_record(line: u8, number: u8) -> [u8; 3] {
    let line = line as u16;
    let number = number as u16;
    let operation = (line * 11 + number * 7) % 28;
    let (second, operand) = match operation {
        0..=15 => ((line + number) % 2, (line * 5 + number * 3) % 16),
        16..=23 => (0, (line * 37 + number * 91) % 256),
        24 => (0, (line + number) % 4),
        25..=26 => ((line * 3 + number) % 4, (line + number) % 4),
        _ => (0, 0),
    };
    [operation as u8, second as u8, operand as u8]
}

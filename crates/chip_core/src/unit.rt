// The arithmetic unit: a row of document 01's table for each mode, and the flags that the row sets merged into SR once.
ghost use Rattle.std.specs.Prelude.{◌≡◌, ◌+◌, ◌-◌, ◌%◌, ◌<◌, ◌+ℤ◌, ◌-ℤ◌, nat_lt};
ghost use Rattle.chip_core.specs.Unit.{signed, outside, rotated_left, filled_right, one_if, packed, if_shifted, row, row_at, merged, unit_result, unit_flags, computed_as, UnitPromise};

use super::refusal::Refusal;
use super::word::is_set;

// A row of the table: the result, the mask of the flags that it sets, and C and O. Z and S go by the result. The mask is a number with its bits as in SR,
// and not four tests, since SR is one (`merged` takes both).
#[derive(Clone, Copy, Debug, PartialEq, Eq)]
struct UnitRow {
    result: u8,
    sets: u8,
    carry: bool,
    overflow: bool,
}

// What the unit gives out.
#[derive(Clone, Copy, Debug, PartialEq, Eq)]
pub struct Computed {
    pub result: u8,
    pub flags: u8,
}

// The "sets" column, bits as in SR: Z 8, C 4, S 2, O 1.
const NONE: u8 = 0b0000;

const ONLY_Z: u8 = 0b1000;

const ONLY_S: u8 = 0b0010;

const ZC: u8 = 0b1100;

const ZCS: u8 = 0b1110;

const ZCSO: u8 = 0b1111;

// C of a sum.
fn carries(a: u8, b: u8) -> bool
    ensures { result ≡ nat_lt 255 (a + b) }
{
    a.checked_add(b).is_none()
}

// O of a sum: the operands have one sign, and their sum modulo 256 has the other.
fn sum_out(a: u8, b: u8) -> bool
    ensures { result ≡ outside (signed a +ℤ signed b) }
{
    let sign = is_set(7, a.wrapping_add(b) as u16);
    (is_set(7, a as u16) ^ sign) & (is_set(7, b as u16) ^ sign)
}

// O of a difference: adding b to it again overflows.
fn difference_out(a: u8, b: u8) -> bool
    ensures { result ≡ outside (signed a -ℤ signed b) }
{
    sum_out(a.wrapping_sub(b), b)
}

// "n = a mod 8": a shift count is the low three bits of Acc.
fn count(a: u8) -> u16
    ensures { (result ≡ a % 8) × (result < 8) }
{
    (a as u16) & 7
}

// By 8 - n to the left is by n to the right.
#[tactic(auto, using(crate::proofs::Shift::turns))]
fn rotated_left(b: u8, n: u16) -> u8
    requires { n < 9 }
    ensures { result ≡ rotated_left b n }
{
    let turned = (b as u16) << n;
    (turned & 255 | turned >> 8) as u8
}

// Bit 7 is copied into the eight bits above the byte, from where the shift fills in.
#[tactic(auto, using(crate::proofs::Shift::fills))]
fn filled_right(b: u8, n: u16) -> u8
    requires { n < 8 }
    ensures { result ≡ filled_right b n }
{
    let byte = b as u16;
    let extended = byte + (byte >> 7) * 0xFF00;
    (extended >> n & 255) as u8
}

// One of two masks, as modes C, D and E have them: the table names this choice (`if_shifted`).
fn if_shifted(n: u16, shifted: u8, unshifted: u8) -> u8
    ensures { result ≡ if_shifted n shifted unshifted }
{
    if n == 0 { unshifted } else { shifted }
}

fn row(res: u8, sets: u8, carry: bool, overflow: bool) -> UnitRow
    ensures { result ≡ row res sets carry overflow }
{
    UnitRow {
        result: res,
        sets,
        carry,
        overflow,
    }
}

// The table, a row a mode: result, sets, C, O. C of a subtraction is a borrow: modes 1, 7, 9 and F.
#[tactic(auto, using(crate::proofs::Shift::turns_back), unfolding(crate::specs::Unit::table))]
fn row_at(mode: u8, a: u8, b: u8) -> UnitRow
    requires { mode < 16 }
    ensures { result ≡ row_at mode a b }
{
    let n = count(a);
    let zc = if_shifted(n, ZC, NONE);
    let zcs = if_shifted(n, ZCS, ONLY_S);
    // the last bit that a shift to the right moves out; bit 0 where it moves none
    let out = is_set(n.saturating_sub(1), b as u16);
    match mode {
        0x0 => row(a.wrapping_add(b), ZCSO, carries(a, b), sum_out(a, b)),
        0x1 => row(a.wrapping_sub(b), ZCSO, a < b, difference_out(a, b)),
        0x2 => row(a, NONE, false, false),
        0x3 => row(b, NONE, false, false),
        0x4 => row(a & b, ONLY_Z, false, false),
        0x5 => row(a | b, ONLY_Z, false, false),
        0x6 => row(a ^ b, ONLY_Z, false, false),
        0x7 => row(b.wrapping_sub(a), ZCSO, b < a, difference_out(b, a)),
        0x8 => row(b.wrapping_add(1), ZCSO, b == 255, b == 127),
        0x9 => row(b.wrapping_sub(1), ZCSO, b == 0, b == 128),
        0xA => row(rotated_left(b, n), NONE, false, false),
        0xB => row(rotated_left(b, 8 - n), NONE, false, false),
        0xC => row(b << n, zc, is_set(8 - n, b as u16), false),
        0xD => row(b >> n, zc, out, false),
        0xE => row(filled_right(b, n), zcs, out, false),
        _ => row(0u8.wrapping_sub(b), ZCSO, 0 < b, b == 128),
    }
}

// Four flags as one number, bits as in SR.
fn pack(z: bool, c: bool, s: bool, o: bool) -> u8
    ensures { (result ≡ packed z c s o) × (result < 16) }
{
    u8::from(z) * 8 + u8::from(c) * 4 + u8::from(s) * 2 + u8::from(o)
}

// "Flags not set keep their value": the flags given under the mask, those before elsewhere.
#[tactic(auto, using(crate::proofs::Flags::merges))]
fn merge(sets: u8, given: u8, before: u8) -> u8
    requires { (sets < 16) × (given < 16) × (before < 16) }
    ensures { result ≡ merged sets given before }
{
    given & sets | before & 15 - sets
}

// Result and flags of a mode on a and b, after the flags in SR. The mode is a number below 16, as the table's definitions take it (`unit_result`): an enum would be
// made only to be matched once.
#[tactic(auto, using(crate::proofs::Flags::masked), unfolding(crate::specs::Unit::unit_result, crate::specs::Unit::unit_flags))]
pub(crate) fn compute(mode: u8, a: u8, b: u8, sr: u8) -> Computed
    requires { (mode < 16) × (sr < 16) }
    ensures { result ≡ computed_as (unit_result mode a b) (unit_flags mode a b sr) }
{
    let row = row_at(mode, a, b);
    let result = row.result;
    let given = pack(
        result == 0,
        row.carry,
        is_set(7, result as u16),
        row.overflow,
    );
    Computed {
        result,
        flags: merge(row.sets, given, sr),
    }
}

// The unit, for any mode and SR. Refuses 14: mode above 15; then 13: SR above 15. So mode and SR are numbers (`UnitPromise`).
#[tactic(auto, unfolding(crate::specs::Unit::computed))]
pub fn unit(mode: u8, a: u8, b: u8, sr: u8) -> Result<Computed, Refusal>
    ensures { UnitPromise mode a b sr result }
{
    if 15 < mode {
        return Err(Refusal::FieldOutOfRange);
    }
    if 15 < sr {
        return Err(Refusal::RegisterOutOfRange);
    }
    Ok(compute(mode, a, b, sr))
}

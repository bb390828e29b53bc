// Text put into a lent output buffer: fixed words, numbers in decimal and in hex.
// Each function puts its text at a place of the buffer and gives the place after it.
#![tactic(auto)]

ghost use Rattle.std.specs.Prelude.{◌≡◌, ℕ, ◌+◌, ◌≤◌, ◌<◌, ◌^◌, [], ◌∷◌, length, take};
ghost use Rattle.lines.specs.Text.{Printed, glyph as glyphOf, decimal, decimal_text, signed_text, hex, hex_text, space_text};
ghost use Rattle.lines.specs.Text.{newline_text};

// The fixed words, each put by `put_bytes`.
pub const NONE: [u8; 4] = *b"none";

pub const REFUSED: [u8; 7] = *b"refused";

pub const END: [u8; 3] = *b"end";

pub const ENGINE: [u8; 6] = *b"engine";

pub const COST: [u8; 4] = *b"cost";

pub const PATH: [u8; 4] = *b"path";

pub const ROW: [u8; 3] = *b"row";

pub const BAD_MAP: [u8; 10] = *b"bad map at";

// Puts a text at a place. Buffer and place stay apart, here and above: docs/EXCEPTIONS.md names these functions.
pub fn put_bytes(out: &mut [u8], at: usize, text: &[u8]) -> usize
    requires { at + length text.now ≤ length out.old }
    ensures { Printed out.old at text.now out.new result }
{
    let next = at + text.len();
    out[at..next].copy_from_slice(text);
    next
}

// The digit of a number below 16.
#[tactic(auto, unfolding(crate::specs::Text::glyph))]
fn glyph(d: u64) -> u8
    requires { d < 16 }
    ensures { result ≡ glyphOf d }
{
    if d < 10 {
        b'0' + d as u8
    } else {
        b'a' + (d - 10) as u8
    }
}

// Puts one byte at a place.
pub fn put_byte(out: &mut [u8], at: usize, b: u8) -> usize
    requires { at + 1 ≤ length out.old }
    ensures { Printed out.old at (b ∷ []) out.new result }
{
    out[at] = b;
    at + 1
}

// Puts a number below 10 ^ places in decimal, with no zeros in front.
fn put_digits(out: &mut [u8], at: usize, n: u64, places: usize) -> usize
    requires places_nonzero { (0 < places) × (n < 10 ^ places) }
    requires n_in_bounds { at + length (decimal places n) ≤ length out.old }
    ensures { Printed out.old at (decimal places n) out.new result }
{
    if n < 10 {
        put_byte(out, at, b'0' + n as u8)
    } else {
        let next = put_digits(out, at, n / 10, places - 1);
        put_byte(out, next, b'0' + (n % 10) as u8)
    }
}

// Puts the last hex digits of a number, as many as places says.
// No one function with `put_digits`, which leaves zeros in front out: base, digits and zeros as parameters would be no plainer.
fn put_hex_digits(out: &mut [u8], at: usize, n: u64, places: usize) -> usize
    requires { at + places ≤ length out.old }
    ensures { Printed out.old at (hex places n) out.new result }
{
    if places == 0 {
        at
    } else {
        let next = put_hex_digits(out, at, n / 16, places - 1);
        put_byte(out, next, glyph(n % 16))
    }
}

// Puts an unsigned number in decimal.
pub fn put_decimal(out: &mut [u8], at: usize, n: u64) -> usize
    requires { at + length (decimal_text n) ≤ length out.old }
    ensures { Printed out.old at (decimal_text n) out.new result }
{
    put_digits(out, at, n, 20)
}

// Puts a signed number in decimal.
pub fn put_signed(out: &mut [u8], at: usize, n: i64) -> usize
    requires { at + length (signed_text n) ≤ length out.old }
    ensures { Printed out.old at (signed_text n) out.new result }
{
    let digits = if n < 0 { put_byte(out, at, b'-') } else { at };
    put_decimal(out, digits, n.unsigned_abs())
}

// Puts the 16 hex digits of a number.
pub fn put_hex(out: &mut [u8], at: usize, n: u64) -> usize
    requires { at + 16 ≤ length out.old }
    ensures { Printed out.old at (hex_text n) out.new result }
{
    put_hex_digits(out, at, n, 16)
}

// Puts the space between two fields.
pub fn put_space(out: &mut [u8], at: usize) -> usize
    requires { at + 1 ≤ length out.old }
    ensures { Printed out.old at space_text out.new result }
{
    put_byte(out, at, b' ')
}

// Puts the end of a line.
pub fn put_newline(out: &mut [u8], at: usize) -> usize
    requires { at + 1 ≤ length out.old }
    ensures { Printed out.old at newline_text out.new result }
{
    put_byte(out, at, b'\n')
}

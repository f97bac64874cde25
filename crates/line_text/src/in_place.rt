// A short line, written from its front into room that was made for it.
ghost use Rattle.std.specs.Prelude.{◌≡◌, ◌≤◌, ◌<◌, ◌+◌, ◌++◌, ◌∷◌, [], decimal, take, length};
ghost use Rattle.line_text.specs.Writing.{line_text};

use itoa::write_digits;

/// Bytes of room: two numbers of at most 8 digits, a word, two spaces and a line end.
pub const ROOM: usize = 32;

/// The longest word for which there is room.
pub const MOST_WORD: usize = 13;

/// The first number for which there is no room.
pub const TOO_LONG: u64 = 100_000_000;

// How many digits a number below 10,000 has.
#[inline]
fn few_digits(number: u64) -> usize
    requires { number < 10000 }
    ensures count { result ≡ length (decimal number) }
    ensures few { result ≤ 4 }
{
    if number < 10 {
        1
    } else if number < 100 {
        2
    } else if number < 1000 {
        3
    } else {
        4
    }
}

// How many digits a number has.
#[inline]
fn digits(number: u64) -> usize
    requires { number < 100000000 }
    ensures count { result ≡ length (decimal number) }
    ensures few { result ≤ 8 }
{
    if number < 10_000 {
        return few_digits(number);
    }
    few_digits(number / 10_000) + 4
}

// Puts a number's digits at a place, and tells where they end.
#[inline]
fn number_at(number: u64, room: &mut [u8], at: usize) -> usize
    requires { (number < 100000000) × (at + 8 ≤ length room.old) }
    ensures end { result ≤ at + 8 }
    ensures kept { length room.new ≡ length room.old }
    ensures written { take result room.new ≡ take at room.old ++ decimal number }
{
    let end = at + digits(number);
    let _start = write_digits(number, room, end);
    end
}

// The same of some bytes.
#[inline]
fn bytes_at(bytes: &[u8], room: &mut [u8], at: usize) -> usize
    requires { at + length bytes.now ≤ length room.old }
    ensures end { result ≡ at + length bytes.now }
    ensures kept { length room.new ≡ length room.old }
    ensures written { take result room.new ≡ take at room.old ++ bytes.now }
{
    let end = at + bytes.len();
    room[at..end].copy_from_slice(bytes);
    end
}

/// Puts a line of its number, a word and a count at the room's front, and tells how long it is.
#[inline(always)]
pub fn counted_in(room: &mut [u8], line: u64, word: &[u8], count: u64) -> usize
    requires room { length room.old ≡ 32 }
    requires short { (line < 100000000) × (length word.now ≤ 13) × (count < 100000000) }
    ensures kept { length room.new ≡ 32 }
    ensures within { result ≤ 32 }
    ensures written { take result room.new ≡ line_text line (word.now ∷ decimal count ∷ []) }
{
    let at = number_at(line, room, 0);
    let at = bytes_at(b" ", room, at);
    let at = bytes_at(word, room, at);
    let at = bytes_at(b" ", room, at);
    let at = number_at(count, room, at);
    bytes_at(b"\n", room, at)
}

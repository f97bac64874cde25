// Hex digits in lower case alone. For those of either case, the kit's `hex` is the reader.
ghost use Rattle.std.specs.Prelude.{ℕ, List, ◌≡◌, length, not, true};
ghost use Rattle.std.specs.Char.{is_ascii_uppercase};
ghost use Rattle.std.specs.List.{list_all};
ghost use Rattle.hex.specs.Hex.{IsBytes, encode_lower};

// Whether no byte is a capital letter.
fn has_no_capital(text: &[u8]) -> bool
    ensures { result ≡ list_all (λ b. not (is_ascii_uppercase b)) text.now }
{
    text.iter().all(|byte| !byte.is_ascii_uppercase())
}

/// Reads a field that is lower-case hex digits, two for each byte of the room, and puts their bytes there. Where the
/// field is not, the room holds any bytes.
pub fn lower_hex_into(field: &[u8], room: &mut [u8]) -> bool
    ensures read { result ≡ true → field.now ≡ encode_lower room.new }
    ensures each { (bytes : List ℕ) → IsBytes bytes → length bytes ≡ length room.old → field.now ≡ encode_lower bytes → result ≡ true }
    ensures size { length room.new ≡ length room.old }
{
    match hex::decode_to_slice(field, room) {
        Ok(()) => has_no_capital(field),
        Err(_) => false,
    }
}

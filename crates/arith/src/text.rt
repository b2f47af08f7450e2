// The decimal text of a word, printed at the end of a page: a page is the bytes that are printed so far.
ghost use Rattle.std.specs.Prelude.{◌≡◌, [], ◌∷◌};
ghost use Rattle.std.specs.Fmt.{signed_decimal};
ghost use Rattle.arith.specs.Printed.{Printed, padded};

use itoa::Buffer;
use slicevec::{Full, SliceVec};

/// Prints the decimal text of `value` at the end of `page`, with blanks in front up to `width`.
/// Where there is no room for all of it, nothing is printed.
pub fn print_word(page: &mut SliceVec<'_, u8>, value: i32, width: u32) -> Result<(), Full>
    ensures { Printed (padded width (signed_decimal value)) page.old page.new result }
{
    let mut buffer = Buffer::new();
    print_padded(page, buffer.format(value).as_bytes(), width)
}

/// Prints one byte at the end of `page`, with blanks in front up to `width`.
/// Where there is no room for all of it, nothing is printed.
pub fn print_byte(page: &mut SliceVec<'_, u8>, byte: u8, width: u32) -> Result<(), Full>
    ensures { Printed (padded width (byte ∷ [])) page.old page.new result }
{
    print_padded(page, &[byte], width)
}

// Prints `text` with blanks in front up to `width`, or nothing where there is no room for all of it.
// Page and width are two parameters, as in the public calls above.
fn print_padded(page: &mut SliceVec<'_, u8>, text: &[u8], width: u32) -> Result<(), Full>
    ensures { Printed (padded width text.now) page.old page.new result }
{
    // No `usize::from(width)`: a `u32` need not fit every `usize`.
    let length = text.len().max(width as usize);
    if page.room_left() < length {
        return Err(Full);
    }
    for _ in text.len()..length {
        page.push(b' ')?;
    }
    for byte in text {
        page.push(*byte)?;
    }
    Ok(())
}

#[cfg(test)]
mod tests {
    use super::*;
    use std::test::Fail;

    #[test]
    fn words_and_bytes_are_padded(rt: HostRuntime) -> Result<(), Fail> {
        let mut memory = [b'.'; 24];
        let mut page = SliceVec::new(&mut memory);
        print_word(&mut page, i32::MIN, 0)?;
        print_word(&mut page, 0, 3)?;
        print_word(&mut page, -70, 3)?;
        print_byte(&mut page, b'x', 2)?;
        assert_eq!(rt; page.as_slice(), b"-2147483648  0-70 x".as_slice());
        assert_eq!(rt; &memory[19..], b".....".as_slice());
        Ok(())
    }

    #[test]
    fn a_text_too_long_is_not_printed(rt: HostRuntime) -> Result<(), Fail> {
        let mut memory = [b'.'; 4];
        let mut page = SliceVec::new(&mut memory);
        print_byte(&mut page, b'a', 1)?;
        assert_eq!(rt; print_word(&mut page, 1234, 0), Err(Full));
        assert_eq!(rt; print_word(&mut page, 1, 2_147_483_647), Err(Full));
        print_word(&mut page, 123, 3)?;
        assert_eq!(rt; print_byte(&mut page, b'b', 0), Err(Full));
        assert_eq!(rt; page.as_slice(), b"a123".as_slice());
        Ok(())
    }
}

// A rack of probes: lent readings that are told as text.
ghost use Rattle.std.specs.Prelude.{◌≡◌, ◌≤◌, length, slice_get, slice_index};
ghost use Rattle.source.specs.Racks.{rack_text, told};
ghost use Rattle.source.specs.Bytes.{rack_bytes};

use crate::Source;
use itoa::Buffer;

/// The highest reading of a live probe, in hundredths of a percent.
const MAX_LIVE: u16 = 9_999;

// The byte at a place of what a reading is told as, or none behind it.
fn told_byte(reading: u16, place: usize) -> Option<u8>
    ensures { result ≡ slice_get (told reading) place }
{
    let mut buffer = Buffer::new();
    let text = if reading > MAX_LIVE {
        "-1"
    } else {
        buffer.format(reading / 10)
    };
    text.as_bytes().get(place).copied()
}

/// The readings in hundredths of a percent that are still to be told; of the first one's line, `taken` bytes are taken.
#[derive(Drop)]
pub struct Rack<'a> {
    readings: &'a [u16],
    taken: usize,
    ghost inside: { taken ≤ length (told (slice_index readings.now 0)) },
}

impl<'a> Rack<'a> {
    ghost use Rattle.source.specs.Rack.{text_left};

    /// A rack of which nothing is told.
    pub fn new(readings: &'a [u16]) -> Rack<'a>
        ensures { text_left result ≡ rack_text readings.now }
    {
        Rack { readings, taken: 0 }
    }
}

impl Source for Rack<'_> {
    ghost use Rattle.source.specs.Rack.{text_left};

    ghost waiting = { text_left };

    ghost bytes = { λ k. rack_bytes k.readings.now k.taken };

    fn look(&self) -> Option<u8> {
        let reading = self.readings.first()?;
        Some(told_byte(*reading, self.taken).unwrap_or(b'\n'))
    }

    fn take(&mut self) -> Option<u8> {
        let (reading, rest) = self.readings.split_first()?;
        match told_byte(*reading, self.taken) {
            Some(byte) => {
                self.taken += 1;
                Some(byte)
            }
            None => {
                self.readings = rest;
                self.taken = 0;
                Some(b'\n')
            }
        }
    }
}

// A bundle: what a program is given in one piece, a recipe and then, behind a line `%%`, the input of its run.
#![tactic(auto)]

ghost use Rattle.std.specs.Prelude.{◌≡◌, ◌<◌, length};
ghost use Rattle.bundle.specs.Marks.{mark_at, Divided};

/// The two parts of a bundle.
#[derive(Clone, Copy, Debug, PartialEq, Eq)]
pub struct Bundle<'a> {
    pub recipe: &'a [u8],
    pub input: &'a [u8],
}

/// Whether the line that begins at `at` is `%%`.
fn is_mark(bytes: &[u8], at: usize) -> bool
    requires { at < length bytes.now }
    ensures { result ≡ mark_at bytes.now at }
{
    let line_begins = at == 0 || bytes[at - 1] == b'\n';
    // The first byte by itself: at most lines it is no `%`, and no pattern is tried.
    line_begins && bytes[at] == b'%' && matches!(&bytes[at + 1..], [b'%'] | [b'%', b'\n', ..])
}

/// The recipe and its input: what stands before and behind the first line `%%`.
pub fn divide(bytes: &[u8]) -> Bundle<'_>
    ensures { Divided bytes.now result.recipe.now result.input.now }
{
    match (0..bytes.len()).find(|&at| is_mark(bytes, at)) {
        None => Bundle {
            recipe: bytes,
            input: &[],
        },
        Some(at) => Bundle {
            recipe: &bytes[..at],
            input: &bytes[(at + 3).min(bytes.len())..],
        },
    }
}

#[cfg(test)]
mod tests {
    use super::*;

    // What is given, the length of its recipe, and the length of its input.
    static GIVEN: [(&'static [u8], usize, usize); 10] = [
        (b"", 0, 0),
        (b"abc", 3, 0),
        (b"%%", 0, 0),
        (b"%%\n14", 0, 2),
        (b"abc\n%%", 4, 0),
        (b"abc\n%%\n143\n", 4, 4),
        (b"abc\n%%\n1\n%%\n2", 4, 6),
        (b"abc\n %%\n%%x\nx%%\n", 16, 0),
        (b"abc %%\n143", 10, 0),
        (b"a\r\n%%\r\n%%\n", 7, 0),
    ];

    #[test]
    fn parts(rt: HostRuntime) {
        for (bytes, recipe, input) in GIVEN {
            let bundle = divide(bytes);
            assert_eq!(rt; (bundle.recipe.len(), bundle.input.len()), (recipe, input));
        }
    }
}

// The list of a recipe's tokens as text.
ghost use Rattle.std.specs.Prelude.{◌≡◌, ◌++◌, IfOk, OnOk};
ghost use Rattle.mjtokens.specs.Listing.{label as label_of, line as line_of, Listed};

use itoa::Buffer;
use lexer::{Kind, Token, Tokens, scan};
use std::alloc::{AllocError, Global};

/// The word for a kind of token.
fn label(kind: Kind) -> &'static str
    ensures { result.now ≡ label_of kind }
{
    match kind {
        Kind::End => "end",
        Kind::Name => "name",
        Kind::Number(_) => "number",
        Kind::Character(_) => "character",
        Kind::Word(_) => "word",
        Kind::Sign(_) => "sign",
    }
}

/// Writes the line of one token behind what is there.
// The digits come from a buffer on the stack: with a string for each line a run took twice the time.
fn write_line(out: &mut Vec<u8>, recipe: &[u8], token: Token) -> Result<(), AllocError>
    ensures { OnOk result (out.new.items ≡ out.old.items ++ line_of recipe.now token) }
{
    let mut place = Buffer::new();
    out.extend_from_slice(place.format(token.place).as_bytes())?;
    out.push(b' ')?;
    out.extend_from_slice(label(token.kind).as_bytes())?;
    out.push(b' ')?;
    out.extend_from_slice(token.text(recipe))?;
    out.push(b'\n')?;
    Ok(())
}

/// All that is printed of a recipe: its tokens, or why it has none.
pub(crate) fn listing(heap: Global, recipe: &[u8]) -> Result<Vec<u8>, AllocError>
    ensures { IfOk result (λ v. Listed recipe.now v.items) }
{
    let count = match scan(recipe) {
        Ok(count) => count,
        Err(refusal) => return Ok(format!(in heap; "{refusal}\n")?.into_bytes()),
    };
    let mut out = Vec::new(heap);
    for token in Tokens::new(recipe) {
        // The scan found no refusal.
        write_line(&mut out, recipe, token.unwrap())?;
    }
    out.extend_from_slice(format!(in heap; "tokens {count}\n")?.as_bytes())?;
    Ok(out)
}

ghost use Rattle.std.specs.Prelude.{◌≡◌, ℕ, ◌<◌, ◌≤◌, List, [], ◌++◌, length, map, IfSome, IfOk, IfErr, IsOkAnd};
ghost use Rattle.cob_picture.specs.Symbols.{chars};
ghost use Rattle.cob_picture.specs.declared.symbol.Symbol.{Symbol};
ghost use Rattle.cob_picture.specs.WrittenOut.{BeginsWithItem, BeginsWithRepeat, ReadsItem, ReadsRepeat, SpelledSymbol, SpellsItems, Front, run_of, IsItemFault, IsBrokenAfter};

use crate::MANY;
use crate::fault::PictureFault;
use crate::symbol::{Run, symbol_at};
use arrayvec::ArrayVec;

/// The number at the front, closed by a bracket, or `MANY` where it is more, and what follows.
pub fn repeat_at(text: &[u8]) -> Option<(u16, &[u8])>
    ensures found { IfSome result (λ r. BeginsWithRepeat text.now r.0 r.1.now) }
    ensures only { ReadsRepeat text.now result }
{
    let mut number: u32 = 0;
    for (i, c) in text.iter().enumerate() {
        match *c {
            b'0'..=b'9' => number = (number * 10 + u32::from(*c - b'0')).min(u32::from(MANY)),
            b')' if number > 0 => return Some((number as u16, &text[i + 1..])),
            _ => return None,
        }
    }
    None
}

/// What is wrong with a text that begins with no symbol.
pub fn unreadable(text: &[u8]) -> PictureFault
    requires { (s : Symbol) (more : List ℕ) → text.now ≡ chars s ++ more → ⊥ }
    ensures { IsItemFault result text.now }
{
    match text.first() {
        Some(b'(') => PictureFault::BadRepeat,
        Some(b'E' | b'G' | b'N' | b'U') => PictureFault::LeftOut,
        _ => PictureFault::UnknownSymbol,
    }
}

/// The symbol with its repeat at the front, and what follows.
pub fn item_at(text: &[u8]) -> Result<(Run, &[u8]), PictureFault>
    ensures found { IfOk result (λ r. BeginsWithItem text.now r.0 r.1.now) }
    ensures only { ReadsItem text.now result }
    ensures fault { IfErr result (λ f. IsItemFault f text.now) }
{
    let Some((symbol, rest)) = symbol_at(text) else {
        return Err(unreadable(text));
    };
    let Some((open, inside)) = rest.split_first() else {
        return Ok((Run { symbol, count: 1 }, rest));
    };
    if *open != b'(' {
        return Ok((Run { symbol, count: 1 }, rest));
    }
    let Some((count, more)) = repeat_at(inside) else {
        return Err(PictureFault::BadRepeat);
    };
    Ok((Run { symbol, count }, more))
}

/// The runs of a text.
pub fn runs_of(text: &[u8]) -> Result<ArrayVec<Run, 50>, PictureFault>
    requires { length text.now ≤ 50 }
    ensures found { IfOk result
        (λ v. (items : List SpelledSymbol) × SpellsItems text.now items
        × (v.items ≡ map run_of items)) }
    ensures only { (items : List SpelledSymbol)
        → SpellsItems text.now items → IsOkAnd result (λ v. v.items ≡ map run_of items) }
    ensures fault { IfErr result (λ f. IsBrokenAfter f text.now) }
{
    let mut runs = ArrayVec::new();
    let mut rest = text;
    while !rest.is_empty() {
        let (run, more) = item_at(rest)?;
        runs.push(run);
        rest = more;
    }
    Ok(runs)
}

ghost use Rattle.std.specs.Prelude.{IfSome};
ghost use Rattle.cob_source.specs.Tokens.{lexemes};
ghost use Rattle.cob_report_refusals.specs.Refused.{StandsIn};

use cob_source::Token;

/// Where a word stands.
#[derive(Clone, Copy)]
pub struct Spot {
    /// Its line, from 1.
    pub line: u32,
    /// The column of its first character, from 8 to 72.
    pub column: u8,
}

/// Where the word with this number stands, from 0 on, if there are as many.
pub fn spot_at(words: &[Token], number: usize) -> Option<Spot>
    ensures { IfSome result (λ s. StandsIn s (lexemes words.now)) }
{
    let mut rest = words;
    let mut left = number;
    while let Some((first, more)) = rest.split_first() {
        if left == 0 {
            return Some(Spot {
                line: first.line,
                column: first.column,
            });
        }
        left -= 1;
        rest = more;
    }
    None
}

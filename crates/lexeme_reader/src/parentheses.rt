ghost use Rattle.std.specs.Prelude.{◌≡◌, ◌<◌, ◌≤◌, MatchBool};
ghost use Rattle.lexeme_reader.specs.Parentheses.{depth_behind, most_open};

use crate::reading::Lexeme;
use litmus_syntax::MOST_PARENTHESES;

/// How many parentheses are open behind a token, of as many before it.
fn depth_behind(depth: usize, lexeme: &Lexeme) -> usize
    requires { depth ≤ 64 }
    ensures { result ≡ depth_behind depth lexeme.now }
{
    match lexeme {
        Lexeme::Sign(b'(') => depth + 1,
        Lexeme::Sign(b')') => depth.saturating_sub(1),
        _ => depth,
    }
}

/// Whether at some place more than 64 parentheses are open.
#[tactic(auto, using(crate::proofs::Depths::most_open_front))]
pub fn is_deep(lexemes: &[Lexeme]) -> bool
    ensures { MatchBool result (64 < most_open 0 lexemes.now) (most_open 0 lexemes.now ≤ 64) }
{
    let mut depth = 0;
    let mut rest = lexemes;
    while let Some((lexeme, behind)) = rest.split_first() {
        depth = depth_behind(depth, lexeme);
        if depth > MOST_PARENTHESES {
            return true;
        }
        rest = behind;
    }
    false
}

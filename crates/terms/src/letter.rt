// The characters of actions.
ghost use Rattle.std.specs.Prelude.{ℕ, ◌≤◌, MatchOption};
ghost use Rattle.terms.specs.Grammar.{Letter};

// The character of an action; 62 and above have none.
pub fn letter(action: u8) -> Option<char>
    ensures { MatchOption result (62 ≤ action) (λ c. Letter c action) }
{
    match action {
        0..=25 => Some((b'a' + action) as char),
        26..=51 => Some((b'A' + (action - 26)) as char),
        52..=61 => Some((b'0' + (action - 52)) as char),
        _ => None,
    }
}

// The action of a character, if it is one of an action.
pub fn action(letter: char) -> Option<u8>
    ensures { MatchOption result ((a : ℕ) → ¬ Letter letter a) (λ a. Letter letter a) }
{
    match letter {
        'a'..='z' => Some(letter as u8 - b'a'),
        'A'..='Z' => Some(letter as u8 - b'A' + 26),
        '0'..='9' => Some(letter as u8 - b'0' + 52),
        _ => None,
    }
}

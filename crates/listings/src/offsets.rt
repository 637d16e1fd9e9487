// Where the actions of a text stand.
ghost use Rattle.std.specs.Prelude.{◌≡◌};
ghost use Rattle.terms.specs.Scan.{is_action};
ghost use Rattle.listings.specs.Offsets.{action_offset};

use terms::letter::action;

fn is_action(byte: u8) -> bool
    ensures { result ≡ is_action byte }
{
    action(byte as char).is_some()
}

// The offset of the action character at this place among the action characters, the first of which has place 1.
pub fn action_offset(text: &[u8], place: usize) -> Option<usize>
    ensures { result ≡ action_offset text.now place }
{
    let ahead = place.checked_sub(1)?;
    text.iter()
        .enumerate()
        .filter_map(|(at, byte)| is_action(*byte).then_some(at))
        .nth(ahead)
}

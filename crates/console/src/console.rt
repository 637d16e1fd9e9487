// A console holds shelf 0 and what each action of later terms stands for.
ghost use Rattle.shelves.specs.Moves.{account_of};
ghost use Rattle.console.specs.Sessions.{Reached};

use lts::ActionMap;
use shelves::Shelf;

mod answer;

#[derive(Drop)]
pub struct Console {
    shelf: Shelf,
    map: ActionMap,
    ghost reached: { ∥ Reached (account_of shelf) map.entries ∥₁ },
}

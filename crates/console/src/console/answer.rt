// What a console answers, line by line.
ghost use Rattle.std.specs.Prelude.{◌≡◌};
ghost use Rattle.commands.specs.Outputs.{written};
ghost use Rattle.console.specs.Answers.{state_of, Answered};
ghost use Rattle.console.specs.States.{start};

use crate::calls::{file, release, submit, withdraw};
use crate::console::Console;
use commands::{Command, Output, Verb};
use lts::ActionMap;
use shelves::Shelf;

impl Console {
    // A console with shelf 0, on which nothing is filed; each action stands for itself.
    pub fn new() -> Console
        ensures { state_of result ≡ start }
    {
        Console {
            shelf: Shelf::new(0),
            map: ActionMap::identity(),
        }
    }

    // Carries out one line, without its line feed; the line that it prints.
    pub fn answer(&mut self, line: &[u8]) -> Output
        ensures { Answered (state_of self.old) line.now (written result) (state_of self.new) }
    {
        let command = match Command::read(line) {
            Ok(command) => command,
            Err(fault) => return Output::refused(&fault),
        };
        let (verb, slot, outcome) = match command {
            Command::File { slot, text } => (
                Verb::File,
                slot,
                file(&mut self.shelf, &self.map, slot, text),
            ),
            Command::Submit { slot, text } => (
                Verb::Submit,
                slot,
                submit(&mut self.shelf, &self.map, slot, text),
            ),
            Command::Release { slot } => (Verb::Release, slot, release(&mut self.shelf, slot)),
            Command::Withdraw { slot } => (Verb::Withdraw, slot, withdraw(&mut self.shelf, slot)),
            Command::Rename { from, to } => {
                self.map = self.map.with(from, to).unwrap();
                return Output::renamed();
            }
        };
        Output::reply(verb, slot, &outcome)
    }
}

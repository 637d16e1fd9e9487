// The letters of the commands.
ghost use Rattle.commands.specs.Letters.{letter_of, Decodes};

#[derive(Clone, Copy)]
pub enum Verb {
    File,
    Submit,
    Release,
    Withdraw,
    Rename,
}

// A byte that is the letter of no command.
#[derive(Clone, Copy, Debug)]
pub struct UnknownLetter(pub u8);

impl TryFrom<u8> for Verb {
    type Error = UnknownLetter;

    ghost try_from_gives = { Decodes };

    fn try_from(byte: u8) -> Result<Verb, UnknownLetter> {
        match char::from(byte) {
            'F' => Ok(Verb::File),
            'S' => Ok(Verb::Submit),
            'R' => Ok(Verb::Release),
            'W' => Ok(Verb::Withdraw),
            'M' => Ok(Verb::Rename),
            _ => Err(UnknownLetter(byte)),
        }
    }
}

impl From<Verb> for u8 {
    ghost use Rattle.std.specs.Prelude.{◌≡◌};

    ghost from_gives = { λ verb byte. byte ≡ letter_of verb };

    fn from(verb: Verb) -> u8 {
        match verb {
            Verb::File => b'F',
            Verb::Submit => b'S',
            Verb::Release => b'R',
            Verb::Withdraw => b'W',
            Verb::Rename => b'M',
        }
    }
}

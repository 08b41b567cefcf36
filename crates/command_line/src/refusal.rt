//! Why words are refused that `clap` takes, and what is said of it.
ghost use Rattle.std.specs.Prelude.{◌≡◌, option_map};
ghost use Rattle.command_line.specs.Answered.{message_of};
ghost use Rattle.command_line.specs.declared.refusal.Refusal.TheVariants.{Memory};

use byte_streams::Fault;

/// Why words are refused that `clap` takes.
#[derive(Clone, Copy, Debug, PartialEq, Eq)]
pub(crate) enum Refusal {
    BadTypes,
    BadArea,
    NoTile,
    Memory,
}

impl Refusal {
    /// What is said on standard error, where memory is not why.
    pub(crate) fn text(self) -> Option<&'static str>
        ensures { option_map (λ text. text.now) result ≡ message_of self }
    {
        match self {
            Refusal::BadTypes => Some("citymerge: bad --cotype\n"),
            Refusal::BadArea => Some("citymerge: bad --bbox\n"),
            Refusal::NoTile => Some("citymerge: no TILE\n"),
            Refusal::Memory => None,
        }
    }
}

/// The only fault of the calls that read an option is [`Fault::Memory`].
impl From<Fault> for Refusal {
    ghost from_gives = { λ _ refusal. refusal ≡ Memory };

    fn from(_fault: Fault) -> Refusal {
        Refusal::Memory
    }
}

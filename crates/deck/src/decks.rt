// Decks by what is known of them: one with all its sections, and one that is accepted. What the functions over them go by is so in every value, and no contract
// repeats it.
ghost use Rattle.std.specs.Prelude.{◌≡◌};
ghost use Rattle.chip_core.specs.Refusal.{accepted};
ghost use Rattle.deck.specs.Deck.{deck_refusal};
ghost use Rattle.deck.specs.Layout.{Complete};

// A deck that the layout checks leave: its lines are at most 256, and it ends where they end.
#[derive(Clone, Copy)]
pub(crate) struct CompleteDeck<'a> {
    pub(crate) bytes: &'a [u8],
    ghost complete: { Complete bytes.now },
}

// A deck that `check` accepts.
#[derive(Clone, Copy)]
pub(crate) struct AcceptedDeck<'a> {
    pub(crate) bytes: &'a [u8],
    ghost complete: { Complete bytes.now },
    ghost accepted: { deck_refusal bytes.now ≡ accepted },
}

impl<'a> AcceptedDeck<'a> {
    // It has all its sections.
    pub(crate) fn complete(self) -> CompleteDeck<'a>
        ensures { result.bytes.now ≡ self.entry.bytes.now }
    {
        CompleteDeck { bytes: self.bytes }
    }
}

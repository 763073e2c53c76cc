// Labels, by number.
ghost use Rattle.std.specs.Prelude.{◌≡◌};
ghost use Rattle.deck.specs.Operation.{label_number_and_values, looked_up};

use super::decks::CompleteDeck;

impl CompleteDeck<'_> {
    // The line of a label, or none. "label not below K" is missing: the labels are numbered from 0, and label K is none.
    #[tactic(auto, unfolding(crate::specs::Operation::looked_up))]
    pub(crate) fn look_up(self, label: u8) -> Option<u16>
        ensures { label_number_and_values result ≡ looked_up self.entry.bytes.now label }
    {
        if label < self.label_count() {
            return Some(self.label_line(label));
        }
        None
    }
}

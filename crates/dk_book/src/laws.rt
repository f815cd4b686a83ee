//! Laws of the cards' definitions. Each is the contract of a function that does nothing.
ghost use Rattle.dk_book.specs.Laws.{AttemptsChangeOneCard, PlacingKeepsCards};

/// An attempt changes the card of its place, and no other.
pub fn attempts_change_one_card()
    ensures holds { AttemptsChangeOneCard }
{}

/// A card that was there stays as it was and where it was, whichever point is placed.
pub fn placing_keeps_cards()
    ensures holds { PlacingKeepsCards }
{}

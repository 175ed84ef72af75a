// Cards and decks.

use cms_text::Series;

/// The bytes of a card.
pub const CARD: usize = 80;

/// A card.
pub type Card = [u8; CARD];

/// A deck: cards in order.
pub type Deck = Series<Card>;

// How an element goes on behind its attributes.
ghost use Rattle.std.specs.Prelude.{◌≡◌};
ghost use Rattle.grammar.specs.Inside.{inside_at};

use crate::bytes::Cursor;

// It closes with "/>", or holds what stands from the place behind ">" and blanks on.
#[derive(Clone, Drop)]
pub enum Inside<'a> {
    Closed(Cursor<'a>),
    Holds(Cursor<'a>),
}

impl<'a> Cursor<'a> {
    #[tactic(auto, unfolding(crate::specs::Inside::inside_at))]
    pub fn inside(&self) -> Option<Inside<'a>>
        ensures { result ≡ inside_at self.now.bytes self.now.at }
    {
        if let Some(next) = self.literal(b"/>") {
            return Some(Inside::Closed(next));
        }
        Some(Inside::Holds(self.literal(b">")?.past_blanks()))
    }
}

use std::marker::Model;
use std::sync::ledger::{Blank, Book, Ledger, Share};

/// How often `tick` was called. It takes no bytes at run time.
///
/// Contracts see the number, and bound it: a step is one comparison of a tuple with a template.
#[derive(Drop)]
pub struct Steps<L: Ledger> {
    book: Book<L>,
    share: Share<L>,
}

impl<L: Ledger> Model for Steps<L> {
    ghost use Rattle.std.specs.Prelude.{ℕ, ◌<◌};

    ghost Value = { ℕ };

    ghost view = { λ s. s.book.total };

    ghost invariant = { λ s. 0 < s.share.parts };
}

impl<L: Ledger> Steps<L> {
    ghost use Rattle.std.specs.Prelude.{◌≡◌, ◌+◌, ◌<◌};

    /// Counts from 0, in the ledger of `blank`. A caller that counts nothing makes a blank of one part,
    /// and calls with std's `Brand` for `L`.
    pub fn new(blank: Blank) -> Steps<L>
        requires name { blank.name ≡ L.name }
        requires parts { blank.parts ≡ L.parts }
        requires some { 0 < blank.parts }
        ensures { result ≡ 0 }
    {
        let (book, share) = blank.open();
        Steps { book, share }
    }

    /// Counts one more.
    pub fn tick(&mut self)
        ensures { self.new ≡ self.old + 1 }
    {
        self.book.add(&mut self.share, 1);
    }
}

// Poll: whether a history of a slot's site is dry.
ghost use Rattle.module.specs.Polls.{ValidBook, PollsIn};

use super::Module;
use history::book::BookWords;
use site::poll::PollAnswer;

impl Module {
    // "The poll of a history reads only this number": what its site says. There is none for a slot above 3, or one that is not opened: it
    // is refused 14.
    pub fn poll(self, slot: usize, book: &BookWords, h: u64) -> Option<PollAnswer>
        requires { ValidBook self slot book.now }
        ensures { PollsIn self slot book.now h result }
    {
        if !self.is_open(slot) {
            return None;
        }
        let site = self.slots[slot].site;
        Some(site.poll(book, h))
    }
}

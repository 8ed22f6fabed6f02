// Entry of: where a live operation stands in the table.
ghost use Rattle.std.specs.Prelude.{◌≡◌};
ghost use Rattle.table.specs.Tables.{Owns, entry_of, live_numbers};

use super::Site;
use table::EntryNumber;

impl Site {
    // The entry of a live operation: "a freed entry is used again", and until then it is the operation's own.
    pub fn entry_of(self, order: &[u8], rows: &[u64], id: u64) -> Option<EntryNumber>
        requires { Owns self.table order.now rows.now }
        ensures { result ≡ entry_of rows.now id (live_numbers self.table order.now) }
    {
        table::search::entry_of(order, rows, self.table.finished + self.table.queue, id)
    }
}

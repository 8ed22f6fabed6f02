// The order of a site's entries: a list of entry numbers in which a number changes its place and none is lost.
ghost use Rattle.std.specs.Prelude.{◌≡◌, ◌≤◌, ◌<◌, length};
ghost use Rattle.forms.specs.Lists.{below};
ghost use Rattle.forms.specs.Limits.{live_limit};
ghost use Rattle.table.specs.Order.{moved, turned};

use forms::limits::LIVE;

// The numbers of a site's entries, of 8 bits each: first those of the done ones, in log order, then those that are not done, in order of
// arrival (or waiting, in order of delivery), then those that are free. A site alone has 64 of them; one that shares its table is lent
// those that it may use, at most 64. They are numbers of rows and no references, since C lends both arrays.
pub type Order = [u8; LIVE];

// All entries free, in rising order.
pub fn number_all(order: &mut Order)
    ensures { order.new ≡ below live_limit }
{
    for (i, number) in order.iter_mut().enumerate() {
        *number = i as u8;
    }
}

// The number at `from` goes to the earlier place `to`; those between move on by one.
pub fn move_forward(order: &mut [u8], from: usize, to: usize)
    requires { (to ≤ from) × (from < length order.old) }
    ensures { order.new ≡ moved from to order.old }
{
    let number = order[from];
    order.copy_within(to..from, to + 1);
    order[to] = number;
}

// The number at `from` goes to the later place `to`; those between move up by one.
pub fn move_back(order: &mut [u8], from: usize, to: usize)
    requires { (from ≤ to) × (to < length order.old) }
    ensures { order.new ≡ moved from to order.old }
{
    let number = order[from];
    order.copy_within(from + 1..to + 1, from);
    order[to] = number;
}

// Of the first n numbers, the first k go behind the others. They are put aside here: for this `rotate_left` clears a room of 4,096 bytes of
// its own at each call. (By one too it calls C's `memmove`, which else only the archive of `fitting_module` asks for.)
pub fn turn(order: &mut [u8], k: usize, n: usize)
    requires { (k ≤ n) × (n ≤ length order.old) × (length order.old ≤ live_limit) }
    ensures { order.new ≡ turned k n order.old }
{
    let mut first = [0u8; LIVE];
    first[..k].copy_from_slice(&order[..k]);
    order.copy_within(k..n, 0);
    order[n - k..n].copy_from_slice(&first[..k]);
}

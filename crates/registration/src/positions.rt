// The net positions that a confirmed trade moves: the seller's fall, the buyer's rise.
ghost use Rattle.std.specs.Prelude.{◌≡◌, ◌+◌, ◌*◌, ◌≤◌, length, take, drop};
ghost use Rattle.wire.specs.Regions.{splice};
ghost use Rattle.wire.specs.Parts.{sweep};
ghost use Rattle.rules.specs.Limits.{book_size, most_hours};
ghost use Rattle.image.specs.Layout.{net_width};
ghost use Rattle.image.specs.Changes.{raised};
ghost use Rattle.image.specs.Tables.{Tabled};
ghost use Rattle.registration.specs.Positions.{nets_moved};

use book::state::net_offset;
use image::layout::NET_WIDTH;
use rules::Row;
use std::num::wrapping_add_u32;
use wire::numbers::{get, put};
use wire::signed::SignedWord;

// Raises the number in the 4 bytes at `at`, modulo 2^32.
fn raise_net(s: &mut [u8], at: usize, more: u32)
    requires { at + net_width ≤ length s.old }
    ensures { s.new ≡ splice s.old at (raised net_width more (take net_width (drop at s.old))) }
{
    put(s, at, wrapping_add_u32(get::<u32>(s, at), more));
}

// Raises each of the `n` numbers from `from` on.
fn raise_nets(s: &mut [u8], from: usize, n: usize, more: u32)
    requires { from + net_width * n ≤ length s.old }
    ensures { s.new ≡ sweep (raised net_width more) net_width s.old from n }
{
    for i in 0..n {
        raise_net(s, from + NET_WIDTH * i, more);
    }
}

// Moves the nets of both parties of a trade in each of its hours: the seller's fall by its quantity, then the buyer's rise by it.
pub fn move_nets(book: &mut [u8], r: Row)
    requires { (length book.old ≡ book_size) × Tabled most_hours r × (1 ≤ r.quantity.0) }
    ensures { book.new ≡ nets_moved book.old r }
{
    let quantity = r.quantity;
    let n = (r.last - r.first) as usize + 1;
    let seller = r.seller();
    let buyer = r.buyer();
    raise_nets(book, net_offset(seller, r.first), n, quantity.0.minus());
    raise_nets(book, net_offset(buyer, r.first), n, quantity.0);
}

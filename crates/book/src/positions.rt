// Net positions, each read from the 4 bytes that hold it.
ghost use Rattle.std.specs.Prelude.{◌≡◌, true, ◌+◌};
ghost use Rattle.wire.specs.Numbers.{number_at};
ghost use Rattle.rules.specs.Limits.{most_hours};
ghost use Rattle.rules.specs.Registration.{net_of};
ghost use Rattle.image.specs.Valid.{is_sound, book_in};
ghost use Rattle.image.specs.Layout.{present_offset, net_offset, net_width};
ghost use Rattle.image.specs.Tables.{InTable};
ghost use Rattle.book.specs.Members.{IsAccount, IsHour};
ghost use Rattle.book.specs.Netted.{netted};

use crate::state::net_offset;
use rules::Net;
use units::Kwh;
use wire::numbers::get;
use wire::signed::{HALF_U32, SignedWord};

// The 4 bytes that hold the net of an account in an hour.
pub fn stored_net(book: &[u8], account: u8, hour: u8) -> u32
    requires { (is_sound book.now ≡ true) × InTable most_hours account hour }
    ensures { result ≡ number_at book.now (present_offset + net_offset most_hours account hour) net_width }
{
    get::<u32>(book, net_offset(account, hour))
}

// The net position of an account in an hour: what was bought beyond what was sold, or the reverse.
pub fn net_at(book: &[u8], account: u8, hour: u8) -> Net
    requires { (is_sound book.now ≡ true) × IsAccount (book_in book.now) account × IsHour (book_in book.now) hour }
    ensures { result ≡ netted (net_of (book_in book.now).part.rows account hour) }
{
    let stored = stored_net(book, account, hour);
    if stored < HALF_U32 {
        return Net {
            bought: Kwh(stored),
            sold: Kwh(0),
        };
    }
    Net {
        bought: Kwh(0),
        sold: Kwh(stored.minus()),
    }
}

// A request in 34 bytes: its fields in bit order, each in its full width.
ghost use Rattle.std.specs.Prelude.{◌≡◌, length};
ghost use Rattle.abi.specs.Fields.{fields_size, request_bytes, request_in};

use rules::Request;
use units::{Cents, CentsPerMwh, Kwh};
use wire::numbers::{get, put};

// The bytes of the fields.
pub const FIELDS_SIZE: usize = 34;

// The bytes of a request.
pub fn request_bytes(q: Request) -> [u8; FIELDS_SIZE]
    ensures { result ≡ request_bytes q }
{
    let mut b = [0; FIELDS_SIZE];
    put(&mut b, 0, q.kind);
    put(&mut b, 1, q.account);
    put(&mut b, 2, q.other);
    put(&mut b, 3, q.code);
    put(&mut b, 11, q.side);
    put(&mut b, 12, q.first);
    put(&mut b, 13, q.last);
    put(&mut b, 14, q.quantity.0);
    put(&mut b, 18, q.number);
    put(&mut b, 20, q.operator);
    put(&mut b, 21, q.guarantee.0);
    put(&mut b, 29, q.point);
    put(&mut b, 30, q.price.0);
    b
}

// The request that these bytes say.
pub fn request_in(s: &[u8]) -> Request
    requires { length s.now ≡ fields_size }
    ensures { result ≡ request_in s.now }
{
    Request {
        kind: get::<u8>(s, 0),
        account: get::<u8>(s, 1),
        other: get::<u8>(s, 2),
        code: get::<u64>(s, 3),
        side: get::<u8>(s, 11),
        first: get::<u8>(s, 12),
        last: get::<u8>(s, 13),
        quantity: Kwh(get::<u32>(s, 14)),
        number: get::<u16>(s, 18),
        operator: get::<u8>(s, 20),
        guarantee: Cents(get::<u64>(s, 21)),
        point: get::<u8>(s, 29),
        price: CentsPerMwh(get::<u32>(s, 30)),
    }
}
